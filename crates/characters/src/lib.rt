// Characters of names and of hexadecimal numbers, by one constant table.
#![tactic(auto)]

ghost use Rattle.std.specs.Prelude.{◌≡◌};
ghost use Rattle.characters.specs.Characters.{entry_of, character_table, is_node_entry, is_property_entry, hex_value, hex_digit};

// Document 01: "one constant table of 256 entries, one for each byte". An entry is the hex value (16: no
// hex digit), and 32 for a node name's character, and 64 for a property name's.
const TABLE: [u8; 256] = [
    16, 16, 16, 16, 16, 16, 16, 16, 16, 16, 16, 16, 16, 16, 16, 16, 16, 16, 16, 16, 16, 16, 16, 16,
    16, 16, 16, 16, 16, 16, 16, 16, 16, 16, // !
    16, // "
    80, // #
    16, // $
    16, // %
    16, // &
    16, // '
    16, // (
    16, // )
    16, // *
    112, // +
    112, // ,
    112, // -
    112, // .
    16, // /
    96, // 0
    97, // 1
    98, // 2
    99, // 3
    100, // 4
    101, // 5
    102, // 6
    103, // 7
    104, // 8
    105, // 9
    16, // :
    16, // ;
    16, // <
    16, // =
    16, // >
    80, // ?
    16, // @
    106, // A
    107, // B
    108, // C
    109, // D
    110, // E
    111, // F
    112, // G
    112, // H
    112, // I
    112, // J
    112, // K
    112, // L
    112, // M
    112, // N
    112, // O
    112, // P
    112, // Q
    112, // R
    112, // S
    112, // T
    112, // U
    112, // V
    112, // W
    112, // X
    112, // Y
    112, // Z
    16, // [
    16, // \
    16, // ]
    16, // ^
    112, // _
    16, // `
    106, // a
    107, // b
    108, // c
    109, // d
    110, // e
    111, // f
    112, // g
    112, // h
    112, // i
    112, // j
    112, // k
    112, // l
    112, // m
    112, // n
    112, // o
    112, // p
    112, // q
    112, // r
    112, // s
    112, // t
    112, // u
    112, // v
    112, // w
    112, // x
    112, // y
    112, // z
    16, // {
    16, // |
    16, // }
    16, // ~
    16, 16, 16, 16, 16, 16, 16, 16, 16, 16, 16, 16, 16, 16, 16, 16, 16, 16, 16, 16, 16, 16, 16, 16,
    16, 16, 16, 16, 16, 16, 16, 16, 16, 16, 16, 16, 16, 16, 16, 16, 16, 16, 16, 16, 16, 16, 16, 16,
    16, 16, 16, 16, 16, 16, 16, 16, 16, 16, 16, 16, 16, 16, 16, 16, 16, 16, 16, 16, 16, 16, 16, 16,
    16, 16, 16, 16, 16, 16, 16, 16, 16, 16, 16, 16, 16, 16, 16, 16, 16, 16, 16, 16, 16, 16, 16, 16,
    16, 16, 16, 16, 16, 16, 16, 16, 16, 16, 16, 16, 16, 16, 16, 16, 16, 16, 16, 16, 16, 16, 16, 16,
    16, 16, 16, 16, 16, 16, 16, 16, 16,
];

// All entries of the table, to be laid out once for a run of characters.
pub fn entries() -> [u8; 256]
    ensures { result ≡ character_table }
{
    TABLE
}

fn entry(b: u8) -> u8
    ensures { result ≡ entry_of b }
{
    entries()[usize::from(b)]
}

// Whether a node name may have the character of an entry, `@` apart.
pub fn is_node_entry(entry: u8) -> bool
    ensures { result ≡ is_node_entry entry }
{
    entry / 32 % 2 == 1
}

// Whether a property name may have the character of an entry.
pub fn is_property_entry(entry: u8) -> bool
    ensures { result ≡ is_property_entry entry }
{
    entry / 64 == 1
}

// The value of a hex digit of either case; none for any other character.
pub fn hex_value(b: u8) -> Option<u8>
    ensures { result ≡ hex_value b }
{
    let value = entry(b) % 32;
    (value < 16).then_some(value)
}

// The lower-case hex digit of a number's last four bits. It is made by arithmetic and not from a table of digits: the writer of unit text uses
// no data of the archive (tests/stack).
pub fn hex_digit(number: u64) -> u8
    ensures { result ≡ hex_digit number }
{
    let value = number % 16;
    if value < 10 {
        (48 + value) as u8
    } else {
        (87 + value) as u8
    }
}
