//! The data nodes of ietf-netconf-acm by their numbers: it is the first module of every schema
//! (RFC 8341 3.5.2).

pub(crate) const NACM: u32 = 0;

pub(crate) const ENABLE_NACM: u32 = 1;

pub(crate) const READ_DEFAULT: u32 = 2;

pub(crate) const WRITE_DEFAULT: u32 = 3;

pub(crate) const EXEC_DEFAULT: u32 = 4;

pub(crate) const ENABLE_EXTERNAL_GROUPS: u32 = 5;

pub(crate) const GROUPS: u32 = 6;

pub(crate) const GROUP: u32 = 7;

pub(crate) const USER_NAME: u32 = 9;

pub(crate) const RULE_LIST: u32 = 10;

pub(crate) const LIST_GROUP: u32 = 12;

pub(crate) const RULE: u32 = 13;

pub(crate) const MODULE_NAME: u32 = 15;

pub(crate) const RPC_NAME: u32 = 16;

pub(crate) const NOTIFICATION_NAME: u32 = 17;

pub(crate) const PATH: u32 = 18;

pub(crate) const ACCESS_OPERATIONS: u32 = 19;

pub(crate) const ACTION: u32 = 20;
