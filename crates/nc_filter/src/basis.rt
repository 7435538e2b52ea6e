//! What a filter is asked of.
use crate::index::Index;
use nc_schema::Schema;
use std::alloc::Global;

/// The rows that are looked at, by the instances in which they stand, and their schema.
#[derive(Drop)]
pub(crate) struct Basis<'a> {
    pub(crate) alloc: Global,
    pub(crate) schema: &'a Schema,
    pub(crate) index: Index<'a>,
}
