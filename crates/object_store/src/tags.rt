//! The bytes that tell effects and objects apart.

pub(crate) const SET_ENTRY: u8 = 1;

pub(crate) const DROP_ENTRY: u8 = 2;

pub(crate) const PUSH: u8 = 3;

pub(crate) const POP: u8 = 4;

pub(crate) const CLEAR: u8 = 5;

pub(crate) const ENTRY_KIND: u8 = 1;

pub(crate) const QUEUE_KIND: u8 = 2;
