// The kinds of steps by their numbers. An outward event has the kind of its step.
pub const CREATE: u8 = 1;

pub const JOIN: u8 = 2;

pub const PASS: u8 = 3;

pub const ORDER: u8 = 4;

pub const DELIVER: u8 = 5;

pub const ATTEMPT: u8 = 6;

pub const REGISTER: u8 = 7;

pub const SEND: u8 = 8;

pub const HAND: u8 = 9;

pub const TELL: u8 = 10;

pub const SAFE: u8 = 11;

pub const COLLECT: u8 = 12;
