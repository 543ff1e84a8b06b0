//! The layout of each kind's fields, and the rule of each field.

use crate::layout::Layout;
use crate::rule::Rule;

const ANY: Rule = Rule::Any;

const ZERO: Rule = Rule::Range(0, 0);

const LAST_CELL: Rule = Rule::IfUsed(27);

const USED: Rule = Rule::IfUsed(4_294_967_295);

const USED_BYTE: Rule = Rule::IfUsed(255);

/// The widths of a record's fields: its head's, and its own.
macro_rules! layout {
    ($($width:literal)*) => {
        Layout { widths: [1, 1, 2, $($width),*] }
    };
}

/// The rules of a record's fields: its head's, by its kind and length, and its own.
macro_rules! rules {
    ($kind:literal $length:literal; $($rule:expr),*) => {
        [Rule::Range($kind, $kind), ZERO, Rule::Range($length, $length), $($rule),*]
    };
}

/// An array of a head followed by `$count` rows.
macro_rules! rows {
    (2, [$($head:expr),*], [$($row:expr),*]) => {
        [$($head,)* $($row,)* $($row,)*]
    };
    (4, $head:tt, [$($row:expr),*]) => {
        rows!(2, $head, [$($row,)* $($row),*])
    };
    (16, $head:tt, [$($row:expr),*]) => {
        rows!(4, $head, [$($row,)* $($row,)* $($row,)* $($row),*])
    };
    (22, $head:tt, [$($row:expr),*]) => {
        rows!(2, $head, [
            $($row,)* $($row,)* $($row,)* $($row,)* $($row,)* $($row,)*
            $($row,)* $($row,)* $($row,)* $($row,)* $($row),*
        ])
    };
}

/// The layout of a record of `$count` rows.
macro_rules! row_layout {
    ($count:tt, $row:tt) => {
        Layout { widths: rows!($count, [1, 1, 2], $row) }
    };
}

/// The rules of a record of `$count` rows, given its kind and length.
macro_rules! row_rules {
    ($kind:literal $length:literal; $count:tt, $row:tt) => {
        rows!($count, [Rule::Range($kind, $kind), ZERO, Rule::Range($length, $length)], $row)
    };
}

pub const ATTRIBUTES: Layout<12> = layout!(4 4 4 4 8 4 4 8 8);

pub const ATTRIBUTES_RULES: [Rule; 12] =
    rules!(1 52; Rule::Range(1, 2), ANY, ANY, Rule::Range(0, 1), ANY, ANY, Rule::Range(1, 1000), ANY, ANY);

pub const CLONE_FILE: Layout<9> = layout!(2 1 1 4 4 4);

pub const CLONE_FILE_RULES: [Rule; 9] =
    rules!(2 20; ZERO, Rule::Volume, LAST_CELL, USED, ANY, ZERO);

pub const EXTENTS: Layout<67> = row_layout!(16, [4, 4, 4, 4]);

pub const EXTENTS_RULES: [Rule; 67] = row_rules!(3 260; 16, [Rule::Page, Rule::Count, USED, USED]);

pub const SHORT_EXTENTS: Layout<19> = row_layout!(4, [4, 4, 4, 4]);

pub const SHORT_EXTENTS_RULES: [Rule; 19] =
    row_rules!(4 68; 4, [Rule::Page, Rule::Count, USED, USED]);

pub const HOLES: Layout<35> = row_layout!(16, [4, 4]);

pub const HOLES_RULES: [Rule; 35] = row_rules!(5 132; 16, [Rule::Page, Rule::Count]);

pub const PENDING: Layout<5> = layout!(4 4);

pub const PENDING_RULES: [Rule; 5] = rules!(6 12; Rule::Range(1, 2), ZERO);

pub const QUOTA: Layout<7> = layout!(4 4 8 8);

pub const USER_QUOTA_RULES: [Rule; 7] = rules!(7 28; ANY, ZERO, ANY, ANY);

pub const GROUP_QUOTA_RULES: [Rule; 7] = rules!(8 28; ANY, ZERO, ANY, ANY);

pub const DIR_INDEX: Layout<7> = layout!(4 4 4 4);

pub const DIR_INDEX_RULES: [Rule; 7] = rules!(9 20; Rule::Range(1, 8), ANY, ANY, ZERO);

pub const PARENT: Layout<6> = layout!(4 2 2);

pub const PARENT_RULES: [Rule; 6] = rules!(10 12; ANY, ANY, ZERO);

pub const STRIPE: Layout<14> = layout!(1 1 2 1 1 1 1 1 1 1 1);

pub const STRIPE_RULES: [Rule; 14] =
    rules!(11 16; ANY, ANY, ZERO, ANY, ANY, ANY, ANY, ANY, ANY, ANY, ANY);

pub const VOLUME: Layout<6> = layout!(4 4 4);

pub const VOLUME_RULES: [Rule; 6] = rules!(12 16; ANY, ANY, ANY);

pub const DENSE_EXTENTS: Layout<135> = row_layout!(22, [2, 2, 1, 1, 2, 4]);

pub const DENSE_EXTENTS_RULES: [Rule; 135] =
    row_rules!(13 268; 22, [Rule::Page, Rule::Count, USED_BYTE, ZERO, ZERO, USED]);

pub const SHORT_DENSE: Layout<27> = row_layout!(4, [2, 2, 1, 1, 2, 4]);

pub const SHORT_DENSE_RULES: [Rule; 27] =
    row_rules!(14 52; 4, [Rule::Page, Rule::Count, USED_BYTE, ZERO, ZERO, USED]);
