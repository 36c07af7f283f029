// The block: nine bytes that hold the registers. The moves left are three of them, the lowest byte first.
// Functions and no `From`: array and registers are types of other crates.
ghost use Rattle.std.specs.Prelude.{◌≡◌, ◌<◌};
ghost use Rattle.model.specs.Calls.Registers.{block_of, registers_of};

use model::Registers;

pub fn load(block: [u8; 9]) -> Registers
    ensures { result ≡ registers_of block }
{
    let [command, status, from, to, low, middle, high, mask, flags] = block;
    Registers {
        command,
        status,
        from,
        to,
        left: u32::from_le_bytes([low, middle, high, 0]) as usize,
        mask,
        flags,
    }
}

pub fn store(r: Registers) -> [u8; 9]
    requires { r.left < 16_777_216 }
    ensures { result ≡ block_of r }
{
    let [low, middle, high, _] = (r.left as u32).to_le_bytes();
    [
        r.command, r.status, r.from, r.to, low, middle, high, r.mask, r.flags,
    ]
}
