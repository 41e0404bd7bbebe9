// A property of a CPU node, looked up in the node's own block of properties and then in that of `/cpus`.
ghost use Rattle.std.specs.Prelude.{◌≡◌};
ghost use Rattle.lookup.specs.Lookup.{reason};
ghost use Rattle.capi.specs.Properties.{find_property, property_outcome_c};

use capi::YebkuzanProperty;

// Where a property of a name is, in the CPU node's block or in its parent's: 6, 7 or 9, the CPU node's block first; then 10.
#[unsafe(no_mangle)]
pub extern "C" fn yebkuzan_find_property(
    cpu: &[u8],
    parent: &[u8],
    strings: &[u8],
    name: &[u8],
) -> YebkuzanProperty
    ensures { property_outcome_c result
        ≡ find_property cpu.now parent.now strings.now name.now }
{
    capi::yebkuzan_find_property(cpu, parent, strings, name)
}

// Why a property is not found: 6, 7 or 9, the CPU node's block first; then 10; 0 where it is found.
#[unsafe(no_mangle)]
pub extern "C" fn yebkuzan_lookup_reason(
    cpu: &[u8],
    parent: &[u8],
    strings: &[u8],
    name: &[u8],
) -> u32
    ensures { result ≡ reason cpu.now parent.now strings.now name.now }
{
    capi::yebkuzan_lookup_reason(cpu, parent, strings, name)
}
