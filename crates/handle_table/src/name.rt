// A name is made of a kind, a generation and an index: three bits, sixteen and thirteen, from the
// highest on.
ghost use Rattle.std.specs.Prelude.{◌≡◌, ◌<◌, ◌≤◌, ◌^◌};
ghost use Rattle.handle_table.specs.Name.{name_of, kind_of, generation_of, index_of};

/// So many indices fit into a name.
pub const INDICES: usize = 8192;

/// So many generations of each index fit into a name.
pub const GENERATIONS: u32 = 65536;

/// The name of these parts.
pub fn from_parts(kind: u32, generation: u32, index: u32) -> u32
    requires kind { kind ≤ 5 }
    requires generation { generation < 2 ^ 16 }
    requires index { index < 2 ^ 13 }
    ensures { result ≡ name_of kind generation index }
{
    (kind << 29) + (generation << 13) + index
}

/// The kind that a name says, up to 7.
pub fn kind(name: u32) -> u32
    ensures { result ≡ kind_of name }
{
    name >> 29
}

/// The generation that a name says.
pub fn generation(name: u32) -> u32
    ensures value { result ≡ generation_of name }
    ensures range { result < 2 ^ 16 }
{
    (name >> 13) % GENERATIONS
}

/// The index that a name says.
pub fn index(name: u32) -> usize
    ensures value { result ≡ index_of name }
    ensures range { result < 2 ^ 13 }
{
    name as usize % INDICES
}
