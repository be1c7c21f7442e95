// Where the words of a record stand, as specs/Words.antt has them: the header, a pointer block's entries, a file block, and the partition
// information block; and the relative number of a FIB.

pub const SERIAL: usize = 0;

pub const RELATIVE: usize = 2;

pub const FILLER: usize = 3;

pub const NEXT: usize = 4;

pub const PREVIOUS: usize = 6;

pub const SLOTS: usize = 8;

pub const FILE_TYPE: usize = 16;

pub const DIRECT: usize = 60;

pub const INDIRECT: usize = 188;

pub const DOUBLE: usize = 252;

pub const SECOND_DOUBLE: usize = 254;

pub const KIND: usize = 256;

pub const IN_USE: usize = 257;

pub const LAST_BLOCK: usize = 258;

pub const LAST_ADDRESS: usize = 259;

pub const LOW_NUMBER: usize = 261;

pub const LOW_ADDRESS: usize = 262;

pub const FREE_HEAD: usize = 8;

pub const FREE_TAIL: usize = 10;

pub const NUMBER_FREE: usize = 12;

pub const ROOT: usize = 14;

pub const PARTITION_START: usize = 126;

pub const PARTITION_END: usize = 128;

pub const FIB: i32 = -1;
