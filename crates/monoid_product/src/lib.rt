//! Products of finite monoids. Their keys combine one element of each component, the first the most
//! significant. specs/Component.antt has the components, specs/Product.antt keys, digits and products.
//! How a key moves runs of neighbours is in spans.rt.
#![tactic(auto)]

mod component;
mod keys;
mod law;
mod product;
mod spans;

pub use component::Component;
pub use keys::{TooLarge, product_of};
pub use law::product_limits;
pub use product::{KEY_LIMIT, PART_LIMIT, Product};
