// Characters by name.

pub const LINE_FEED: u8 = 10;

pub const COMMA: u8 = 44;

pub const DIGIT_0: u8 = 48;

pub const DIGIT_9: u8 = 57;
