// The sizes of document 01, The page, and The page code.

// A page's content.
pub const CONTENT_OCTETS: usize = 53;

// A page: its header of three octets, and its content.
pub const PAGE_OCTETS: usize = 56;

// The most pages of a message, and the information octets of the code.
pub const MOST_PAGES: usize = 32;

// The longest message, which is the buffer of every solving call.
pub const MESSAGE_OCTETS: usize = 1696;

// The octets of the longest message, or as many rows of right sides.
pub type Message = [u8; MESSAGE_OCTETS];

// A page's content; a row of right sides.
pub type Content = [u8; CONTENT_OCTETS];

// A row of the square, or of the generator matrix.
pub type Row = [u8; MOST_PAGES];

// The square that solving works on.
pub type Square = [Row; MOST_PAGES];
