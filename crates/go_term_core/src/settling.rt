//! Types as they are written, and as they are once what is no type is known.
//!
//! A written term has each name of a type that resolves as the key of its declaration. A settled term has no type in place of what is
//! none, no field and no method that repeats a name, and no field embedded that may not be.

mod embed;
mod kept;
mod kind;
mod laws;
mod seen;
mod terms;

pub use crate::settling::embed::{can_embed, kind_of};
pub use crate::settling::kind::{Kind, Kinds};
pub use crate::settling::laws::{
    settled_is_apart, settled_mentions_written, settling_cleans, settling_is_idempotent,
    settling_is_local,
};
pub use crate::settling::seen::SeenNames;
pub use crate::settling::terms::{settle, settle_signature};
