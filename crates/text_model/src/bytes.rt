//! The bytes that the texts are made of, by name (docs/FORMATS.md).

pub const LINE_FEED: u8 = b'\n';

pub const CARRIAGE_RETURN: u8 = b'\r';

pub const SPACE: u8 = b' ';

pub const EXCLAMATION_MARK: u8 = b'!';

pub const QUOTE: u8 = b'"';

pub const PERCENT: u8 = b'%';

pub const OPEN_BRACKET: u8 = b'(';

pub const CLOSE_BRACKET: u8 = b')';

pub const ASTERISK: u8 = b'*';

pub const PLUS: u8 = b'+';

pub const COMMA: u8 = b',';

pub const MINUS: u8 = b'-';

pub const DOT: u8 = b'.';

pub const SLASH: u8 = b'/';

pub const ZERO: u8 = b'0';

pub const LESS: u8 = b'<';

pub const EQUALS: u8 = b'=';

pub const GREATER: u8 = b'>';

pub const QUESTION_MARK: u8 = b'?';

pub const OPEN_SQUARE_BRACKET: u8 = b'[';

pub const CLOSE_SQUARE_BRACKET: u8 = b']';

pub const UNDERSCORE: u8 = b'_';
