//! What a program declares, in unbounded fractions, and the laws of declared values. Each law is
//! the contract of a function with an empty body.
//!
//! The laws are of products, sums and complements of declared values; that a convolution rounded
//! outward encloses; Horner's rule; Panjer's recursion for Poisson and negative binomial counts;
//! thinning of Poisson and gamma counts; that the probabilities of listed, binomial, Poisson and
//! gamma counts add up to 1; that a bracket holds each quantile; tail means and joint means; the
//! mean after an aggregate clause, from the layers of the sum before it (`law_clause_mean`,
//! `law_mean_ceded`).
//!
//! The laws of totals are of lists of losses, whatever units they come from; that the outcomes of a
//! unit are a loss is `law_unit`. For every valid plan, whatever its counts and clauses, and
//! whether its units are independent or share a factor: each quantity is bounded, the whole weight
//! is above 0, the declared probabilities add up to 1, and there is at most one quantile at each
//! `p` (`law_bounded`, `law_positive`, `law_whole`, `law_quantile`); the mean of a total is the sum
//! of the means of its units (`law_plan_mean`).
//!
//! The probability of no claim of a count, where it can be changed, is at most 16/17, and a unit
//! with it changed is such a loss too (`law_new_zero`, `law_declared`). What the ends of an outcome
//! become is `law_changed_zero`; that the low ends add up to at most 1, `law_changed_lows`; that
//! the count can be declared, `law_without_none`; how probable no claim is at most,
//! `law_some_claim`. A unit with such a change is a loss that can be declared, and its outcomes and
//! mean have ends from those of the unit (`law_changed_loss`, `law_changed_values`).
//!
//! Gamma counts have any shape above 0: their weights are bounded, add up to the whole weight and
//! have their mean (`law_counts`, `law_settles`, `law_expected_count`); claims of amount 0 can be
//! left out of them (`law_gamma_thinned`); and the probability of no claim of a shape comes from
//! that of sums of shapes and of twice the shape (`law_no_claim_of_shapes`, `law_roots`).
//!
//! Units under a common gamma factor declare of their total what one gamma unit with the mixture of
//! their severities does, at every number of claims (`law_pooled`, `law_pooled_unit`), and a unit's
//! joint mean comes from the cells of that unit with one more in the shape (`law_common_joint`,
//! `law_raised`, `law_common_joint_mean`, `law_joint_within`). Whatever can be asked of such a
//! portfolio is bounded, the whole weight is above 0, and the probabilities add up to 1
//! (`law_common_declared`).
//!
//! A price is the weighted sum of tail means, which are least at the quantile (`law_price`,
//! `law_tail_least`, `law_tail_least_in`). For independent units the shares of all units add up to
//! the tail mean, and their joint means to the total (`law_shares`, `law_share_ends`,
//! `law_joint_total`).
//!
//! The definitions are also shown on closed examples, with values worked outside in exact fractions
//! (`dl_model/proofs/Examples*.antt`): weights of counts, sums of claims and Panjer's recursion
//! (`ExamplesClaims`), outcomes, clauses and changed probabilities of no claim (`ExamplesUnits`),
//! quantities of two dice, prices and a quantile (`ExamplesTotals`), parts and shares of the tail
//! (`ExamplesParts`), and two units under a common factor (`ExamplesShared`).
#![tactic(auto)]

pub mod changed_zero;
pub mod clause_means;
pub mod common_factor;
pub mod counts;
pub mod families;
pub mod listed;
pub mod measures;
pub mod plans;
pub mod poisson;
pub mod prices;
pub mod programs;
pub mod recursion;
pub mod shapes;
pub mod shares;
pub mod totals;
pub mod units;
pub mod values;
