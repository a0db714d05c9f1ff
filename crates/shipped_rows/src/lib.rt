// The shipped descriptions of the PDP-8: without devices here, with them in `twin`.
#![tactic(auto)]

pub mod twin;

ghost use Rattle.std.specs.Prelude.{◌≡◌};
ghost use Rattle.shipped_rows.specs.Variant.{variant_of};
ghost use Rattle.shipped_rows.specs.Text.{shipped_text};

// description/pdp8.rows, byte for byte.
const DESCRIPTION: &[u8] = b"rows\t1\n\
reg\tLAC\t13\n\
reg\tPC\t12\n\
reg\tRUN\t1\n\
reg\tINTERRUPT.ENABLE\t1\n\
reg\tINTERRUPT.REQUEST\t1\n\
reg\tSWITCHES\t12\n\
reg\ti\t12\n\
reg\tlast.pc\t12\n\
reg\teadd\t12\n\
reg\tskip\t1\n\
do\t1\ti\tM[PC]\n\
do\t1\tlast.pc\tPC\n\
do\t1\tPC\tPC + 1\n\
go\ti<0:2> Eql #6\tiot\n\
go\ti<0:2> Eql #7\topr\n\
do\t1\teadd\t'00000 @ i<5:11>\n\
do\ti<4>\teadd\tlast.pc<0:4> @ i<5:11>\n\
go\tNot i<3>\texecute\n\
do\teadd<0:8> Eql #001\tM[eadd]\tM[eadd] + 1\n\
do\t1\teadd\tM[eadd]\n\
at\texecute\n\
go\ti<0:2> Eql #0\tand\n\
go\ti<0:2> Eql #1\ttad\n\
go\ti<0:2> Eql #2\tisz\n\
go\ti<0:2> Eql #3\tdca\n\
go\ti<0:2> Eql #4\tjms\n\
at\tjmp\n\
do\t1\tPC\teadd\n\
go\t1\tinterrupt\n\
at\tand\n\
do\t1\tLAC<1:12>\tLAC<1:12> And M[eadd]\n\
go\t1\tinterrupt\n\
at\ttad\n\
do\t1\tLAC\tLAC + M[eadd]\n\
go\t1\tinterrupt\n\
at\tisz\n\
do\t1\tM[eadd]\tM[eadd] + 1\n\
do\tM[eadd] Eql 0\tPC\tPC + 1\n\
go\t1\tinterrupt\n\
at\tdca\n\
do\t1\tM[eadd]\tLAC<1:12>\n\
do\t1\tLAC<1:12>\t0\n\
go\t1\tinterrupt\n\
at\tjms\n\
do\t1\tM[eadd]\tPC\n\
do\t1\tPC\teadd + 1\n\
go\t1\tinterrupt\n\
at\tiot\n\
do\ti Eql #6001\tINTERRUPT.ENABLE\t1\n\
go\ti Eql #6001\trestart\n\
do\ti Eql #6002\tINTERRUPT.ENABLE\t0\n\
go\t1\tinterrupt\n\
at\topr\n\
go\ti<3>\tgroup.2\n\
do\ti<4>\tLAC<1:12>\t0\n\
do\ti<5>\tLAC<0>\t0\n\
do\ti<6>\tLAC<1:12>\tNot LAC<1:12>\n\
do\ti<7>\tLAC<0>\tNot LAC<0>\n\
do\ti<11>\tLAC\tLAC + 1\n\
go\ti<10>\ttwice\n\
do\ti<9>\tLAC\tLAC Slr 1\n\
do\ti<8>\tLAC\tLAC Srr 1\n\
go\t1\tinterrupt\n\
at\ttwice\n\
do\ti<9>\tLAC\tLAC Slr 2\n\
do\ti<8>\tLAC\tLAC Srr 2\n\
go\t1\tinterrupt\n\
at\tgroup.2\n\
go\ti<11>\tgroup.3\n\
do\t1\tskip\t0\n\
do\ti<5> And LAC<1>\tskip\t1\n\
do\ti<6> And LAC<1:12> Eql 0\tskip\t1\n\
do\ti<7> And LAC<0>\tskip\t1\n\
do\ti<8>\tskip\tNot skip\n\
do\tskip\tPC\tPC + 1\n\
do\ti<4>\tLAC<1:12>\t0\n\
do\ti<9>\tLAC<1:12>\tLAC<1:12> Or SWITCHES\n\
do\ti<10>\tRUN\t0\n\
go\ti<10>\trestart\n\
go\t1\tinterrupt\n\
at\tgroup.3\n\
do\ti<4>\tLAC<1:12>\t0\n\
at\tinterrupt\n\
go\tNot INTERRUPT.ENABLE\trestart\n\
go\tNot INTERRUPT.REQUEST\trestart\n\
do\t1\tM[0]\tPC\n\
do\t1\tPC\t1\n\
do\t1\tINTERRUPT.ENABLE\t0\n\
at\trestart\n\
";

// The shipped description of the machine with devices or without.
pub fn shipped_text(devices: bool) -> &'static [u8]
    ensures { result.now ≡ shipped_text (variant_of devices) }
{
    if devices {
        twin::DESCRIPTION
    } else {
        DESCRIPTION
    }
}
