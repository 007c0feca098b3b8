//! The product of two linear processes.
//!
//! What it is stands in `specs/Product.antt` and `specs/WholeProducts.antt`, and in plain words in `docs/definitions/product.md`.
#![tactic(auto)]

mod allowing;
mod answers;
mod completing;
mod completions;
mod drafts;
mod flag;
mod frames;
mod kept_drafts;
pub mod laws;
mod nearby;
mod partners;
mod products;
mod renewal;
mod renewed;
mod sides;
mod starts;
mod summands;
mod within;

pub use allowing::Allowed;
pub use completing::is_completable;
pub use products::product;
pub use starts::{Start, product_from};
pub use within::product_within;
