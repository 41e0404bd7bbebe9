// The strings by which a node is the container of the CPU features (A3). Every function takes any slice: the bytes of a property's value,
// none where it is missing.
#![tactic(auto)]

ghost use Rattle.std.specs.Prelude.{◌≡◌};
ghost use Rattle.container.specs.Container.{is_container_type, is_container_compatible};

// Whether a `device_type` is a container's.
pub fn is_container_type(value: &[u8]) -> bool
    ensures { result ≡ is_container_type value.now }
{
    stringlist::is_only_string(value, b"cpu-features")
        || stringlist::is_only_string(value, b"ibm,powerpc-cpu-features")
}

// Whether a `compatible` is a container's.
pub fn is_container_compatible(value: &[u8]) -> bool
    ensures { result ≡ is_container_compatible value.now }
{
    stringlist::string_place(value, b"ibm,powerpc-cpu-features").is_some()
}
