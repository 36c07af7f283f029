// The version of the calls for C, which a caller holds against the header that it was built with.
ghost use Rattle.std.specs.Prelude.{◌≡◌};
ghost use Rattle.model.specs.Calls.Answers.{version};

// JAVENDRIKY_VERSION of include/javendriky.h. It is raised whenever a call gets further arguments or another meaning under the same name: a caller
// built for the earlier one would still link, and then read or write wrong lists.
pub const VERSION: u32 = 12;

// The version of this library.
#[unsafe(no_mangle)]
pub extern "C" fn javendriky_version() -> u32
    ensures { result ≡ version }
{
    VERSION
}
