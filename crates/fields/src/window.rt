// The fields of CWSTRT and CWSIZE.
ghost use Rattle.std.specs.Prelude.{◌≡◌};
ghost use Rattle.registers.specs.Window as window_fields;

use bits::field;

pub fn vst(cwstrt: u32) -> u32
    ensures { result ≡ window_fields.vst cwstrt }
{
    field::<28, 16>(cwstrt)
}

pub fn hoffcnt(cwstrt: u32) -> u32
    ensures { result ≡ window_fields.hoffcnt cwstrt }
{
    field::<13, 0>(cwstrt)
}

pub fn vline(cwsize: u32) -> u32
    ensures { result ≡ window_fields.vline cwsize }
{
    field::<29, 16>(cwsize)
}

pub fn capcnt(cwsize: u32) -> u32
    ensures { result ≡ window_fields.capcnt cwsize }
{
    field::<13, 0>(cwsize)
}
