// Single fields: unsigned and big-endian.
ghost use Rattle.std.specs.Prelude.{◌≡◌, ◌+◌, ◌≤◌, length};
ghost use Rattle.tables.specs.Layout.{word_at, half_at};
ghost use Rattle.tables.specs.Rules.{between};

// The two bytes from `at` on.
pub fn half(table: &[u8], at: usize) -> u32
    requires { at + 2 ≤ length table.now }
    ensures { result ≡ half_at table.now at }
{
    u32::from(u16::from_be_bytes([table[at], table[at + 1]]))
}

// The four bytes from `at` on.
pub fn word(table: &[u8], at: usize) -> u32
    requires { at + 4 ≤ length table.now }
    ensures { result ≡ word_at table.now at }
{
    u32::from_be_bytes([table[at], table[at + 1], table[at + 2], table[at + 3]])
}

// Is x between low and high, both allowed?
pub fn within(low: u32, high: u32, x: u32) -> bool
    ensures { result ≡ between low high x }
{
    (low..=high).contains(&x)
}
