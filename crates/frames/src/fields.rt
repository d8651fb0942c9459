// Fields of a book, little-endian: a byte, 16 bits, 32 bits.
ghost use Rattle.std.specs.Prelude.{◌≡◌, ◌+◌, ◌<◌, ◌≤◌, length};
ghost use Rattle.definition.specs.Bytes.{byte, le16, le32};

// Internal: byte `i`.
pub fn read8(book: &[u8], i: usize) -> u32
    requires { i < length book.now }
    ensures { result ≡ byte book.now i }
{
    u32::from(book[i])
}

// Internal: the 16-bit number that begins at byte `i`.
pub fn read16(book: &[u8], i: usize) -> u32
    requires { i + 2 ≤ length book.now }
    ensures { (result ≡ le16 book.now i) × (result < 65536) }
{
    u32::from(u16::from_le_bytes([book[i], book[i + 1]]))
}

// Internal: the 32-bit number that begins at byte `i`.
pub fn read32(book: &[u8], i: usize) -> u32
    requires { i + 4 ≤ length book.now }
    ensures { result ≡ le32 book.now i }
{
    u32::from_le_bytes([book[i], book[i + 1], book[i + 2], book[i + 3]])
}
