//! The tokens of a text: its bytes are cut from the left into blanks and tokens, each token with
//! its place; or the first place where none begins.
//!
//! `lex` gives the one list of tokens that covers a text, or its first bad place (`tokens`,
//! `bad_byte`). A text has at most one such list, and a covered text has no bad place (`one_cover`,
//! `covered_is_not_bad`, `one_bad_byte`). `line_col` is exact. `pair_of` is the pair of a part and
//! of the one behind it, or the fault of the latter.
#![tactic(auto)]

pub mod cut;
mod front;
pub mod law;
pub mod location;
pub mod pair;
pub mod token;

pub use cut::{LexFault, lex};
pub use dl_bytes::{Items, Rare, Text};
pub use location::line_col;
pub use pair::pair_of;
pub use token::{Keyword, Kind, Sign, Span, Token};
