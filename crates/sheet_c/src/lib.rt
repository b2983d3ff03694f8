// The calls of `sheet` for C: each is the library's, with its clauses, under the name that include/mirgalhet.h declares.
#![tactic(auto)]

ghost use Rattle.std.specs.Prelude.{◌≡◌, length};
ghost use Rattle.sheet.specs.Sheet.{read_sheet, wrote, sheet_in};
ghost use Rattle.sheet.specs.Calls.{reading_of, writing_of};

use settings::Settings;
use sheet::{Reading, Writing};

#[unsafe(no_mangle)]
pub extern "C" fn mirgalhet_read_sheet(text: &[u8]) -> Reading
    ensures { result ≡ reading_of (read_sheet text.now) }
{
    sheet::mirgalhet_read_sheet(text)
}

#[unsafe(no_mangle)]
pub extern "C" fn mirgalhet_write_sheet(s: Settings, out: &mut [u8]) -> Writing
    ensures { (result ≡ writing_of (wrote s (length out.old))) × (out.new ≡ sheet_in s out.old) }
{
    sheet::mirgalhet_write_sheet(s, out)
}
