//! Databases: services, what they need, the bundles of their names, and the queries.
#![tactic(auto)]

mod db;
mod fault;
mod fit;
pub mod laws;
mod list;
mod named;
mod parts;
mod pipeline;
mod query;
mod reach;
mod service;
mod table;
mod which;

pub use crate::db::Db;
pub use crate::fault::QueryFault;
pub use crate::named::{first_unknown, has_bundle, has_name};
pub use crate::parts::{Parts, Unfit};
pub use crate::service::Service;
pub use crate::table::{MAX_BUNDLES, Table};
pub use crate::which::Which;
pub use rc_set::NoMem;
