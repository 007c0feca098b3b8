//! From a text to its linear process, and from there to the text that is printed for it.
//!
//! What the printed text is to the text stands in `specs/Headline.antt`, which is to be read first, and in plain words in
//! `docs/definitions/linearising.md`. The functions of [`laws`] have empty bodies: the contract of each is a law, so that the
//! crates above can cite it.
#![tactic(auto)]

mod buffers;
mod checking;
mod components;
mod composing;
mod eliminated_texts;
mod eliminations;
mod ending;
mod fault;
mod form_encoding;
mod judging;
pub mod laws;
mod leaves;
mod linear_texts;
mod linearising;
mod methods;
mod model_linearising;
mod reading;
mod scopes;
mod terminating;
mod tidying;
mod variable_names;

pub use buffers::buffer_line;
pub use checking::check_text;
pub use eliminated_texts::eliminated_text;
pub use eliminations::Elimination;
pub use ending::Ending;
pub use fault::{LinFault, ModelFault};
pub use form_encoding::encode_form;
pub use judging::judge_equations;
pub use linear_texts::linear_text;
pub use linearising::{Linearised, linearise, linearise_as};
pub use methods::Method;
pub use model_linearising::linear_of;
