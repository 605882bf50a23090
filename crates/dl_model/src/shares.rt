//! The laws of one unit beside the total: its joint means, and its share of the tail mean.

ghost use Rattle.std.specs.Prelude.{ℕ, ◌≡◌, List, length};
ghost use Rattle.dl_exact.specs.Prelude.{Fraction, whole, ◌+ℚ◌, ◌-ℚ◌, ◌*ℚ◌, ◌/ℚ◌, ◌≤ℚ◌, ◌<ℚ◌, sum_to, sum_below};
ghost use Rattle.dl_model.specs.Series.{IsBound, Holds};
ghost use Rattle.dl_model.specs.Program.{Loss, AreDeclarable, One, Point, Cdf, Tail, Outcome, Joint, Part, Share, partial_sums};
ghost use Rattle.dl_model.specs.Shares.{HoldsShare};

/// The joint means of all units at a total `x` add up to `x` times that of the total `x` itself.
#[tactic(auto, using(crate::proofs::ShareLaws::joint_means_total))]
pub fn law_joint_total()
    ensures { (us : List Loss) (x N : ℕ)
        → sum_below (length us) (λ i. partial_sums us (Joint i x) N)
        ≡ whole x *ℚ partial_sums us (Point x) N }
{}

/// `1 - p` times the shares of all units, and `q` times what lies below the tail, are `1 - p` times
/// the tail mean, and `p` times `q`: so where the part below the tail has the probability `p`, the
/// shares add up to the tail mean.
#[tactic(auto, using(crate::proofs::ShareLaws::shares_total))]
pub fn law_shares()
    ensures { (p u : Fraction) (q : ℕ) → p <ℚ whole 1 → u ≤ℚ whole 1 → (us : List Loss) (N : ℕ)
        → (whole 1 -ℚ p) *ℚ sum_below (length us) (λ i. partial_sums us (Share i p q u) N) +ℚ
        whole q *ℚ partial_sums us (Part q u) N
        ≡ (whole 1 -ℚ p) *ℚ partial_sums us (Tail p q) N +ℚ
        p *ℚ whole q *ℚ partial_sums us One N }
{}

/// Ends of a unit's share in the tail mean at `p`, where `q` is the quantile: from ends of its
/// mean, of its joint means up to `q` together, of the distribution at `q`, and of its conditional
/// mean at `q`. What of its mean lies above `q`, and the conditional mean times what the
/// distribution at `q` has above `p`, over `1 - p`.
pub fn law_share_ends()
    ensures { (us : List Loss) → AreDeclarable us
        → (i q : ℕ) (p bound : Fraction) → p <ℚ whole 1 → IsBound (partial_sums us One) bound
        → (mean_low mean_high below_low below_high cdf_low cdf_high at_low at_high : Fraction)
        → Holds (partial_sums us (Outcome i)) (partial_sums us One) mean_low mean_high
        → Holds (λ N. sum_to q (λ x. partial_sums us (Joint i x) N)) (partial_sums us One)
        below_low below_high
        → Holds (partial_sums us (Cdf q)) (partial_sums us One) cdf_low cdf_high
        → Holds (partial_sums us (Joint i q)) (partial_sums us (Point q)) at_low at_high
        → HoldsShare (partial_sums us) i p q
        ((mean_low -ℚ below_high +ℚ at_low *ℚ (cdf_low -ℚ p)) /ℚ (whole 1 -ℚ p))
        ((mean_high -ℚ below_low +ℚ at_high *ℚ (cdf_high -ℚ p)) /ℚ (whole 1 -ℚ p)) }
{}
