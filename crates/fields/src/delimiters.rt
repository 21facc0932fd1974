// The fields of ESCR and ESUR.
ghost use Rattle.std.specs.Prelude.{◌≡◌};
ghost use Rattle.registers.specs.Codes as code_fields;

use bits::field;

pub fn fsc(escr: u32) -> u32
    ensures { result ≡ code_fields.fsc escr }
{
    field::<7, 0>(escr)
}

pub fn lsc(escr: u32) -> u32
    ensures { result ≡ code_fields.lsc escr }
{
    field::<15, 8>(escr)
}

pub fn lec(escr: u32) -> u32
    ensures { result ≡ code_fields.lec escr }
{
    field::<23, 16>(escr)
}

pub fn fec(escr: u32) -> u32
    ensures { result ≡ code_fields.fec escr }
{
    field::<31, 24>(escr)
}

pub fn fsu(esur: u32) -> u32
    ensures { result ≡ code_fields.fsu esur }
{
    field::<7, 0>(esur)
}

pub fn lsu(esur: u32) -> u32
    ensures { result ≡ code_fields.lsu esur }
{
    field::<15, 8>(esur)
}

pub fn leu(esur: u32) -> u32
    ensures { result ≡ code_fields.leu esur }
{
    field::<23, 16>(esur)
}

pub fn feu(esur: u32) -> u32
    ensures { result ≡ code_fields.feu esur }
{
    field::<31, 24>(esur)
}
