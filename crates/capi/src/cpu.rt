// A property of a CPU node, looked up in the node's own block of properties and then in that of `/cpus`.
ghost use Rattle.std.specs.Prelude.{◌≡◌};
ghost use Rattle.lookup.specs.Lookup.{reason};
ghost use Rattle.capi.specs.Properties.{find_property, property_outcome_c};

use lookup::Found;

// The blocks in which a property is found, as numbers for C: 0 is neither.
pub const CPU_BLOCK: u32 = 1;

pub const PARENT_BLOCK: u32 = 2;

// A number, or 0 with the block in which the property is, and the offset and the length of the property there, from its token to its
// value's last byte; zeros beside a number.
#[repr(C)]
#[derive(Clone, Copy)]
pub struct YebkuzanProperty {
    pub number: u32,
    pub block: u32,
    pub offset: usize,
    pub length: usize,
}

// Where a property of a name is, in the CPU node's block or in its parent's: 6, 7 or 9, the CPU node's block first; then 10.
pub fn yebkuzan_find_property(
    cpu: &[u8],
    parent: &[u8],
    strings: &[u8],
    name: &[u8],
) -> YebkuzanProperty
    ensures { property_outcome_c result
        ≡ find_property cpu.now parent.now strings.now name.now }
{
    match lookup::look_up(cpu, parent, strings, name) {
        Ok(Found::InCpu { from, to }) => YebkuzanProperty {
            number: 0,
            block: CPU_BLOCK,
            offset: from,
            length: to - from,
        },
        Ok(Found::InParent { from, to }) => YebkuzanProperty {
            number: 0,
            block: PARENT_BLOCK,
            offset: from,
            length: to - from,
        },
        Err(refusal) => YebkuzanProperty {
            number: refusal.into(),
            block: 0,
            offset: 0,
            length: 0,
        },
    }
}

// Why a property is not found: 6, 7 or 9, the CPU node's block first; then 10; 0 where it is found.
pub fn yebkuzan_lookup_reason(cpu: &[u8], parent: &[u8], strings: &[u8], name: &[u8]) -> u32
    ensures { result ≡ reason cpu.now parent.now strings.now name.now }
{
    lookup::lookup_reason(cpu, parent, strings, name).map_or(0, u32::from)
}
