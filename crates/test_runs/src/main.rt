// The run's own number, where rows fit and where they do not. Each run has two lines: the accepted steps, the clipped ones among them and the
// run's number; and the output after it, of which the run was lent a part, and which was 7 in every place.
#![tactic(auto)]

ghost use Rattle.std.specs.Prelude.{◌≤◌, length};

use drive_record::Drive;
use field::Field;
use rows::Ran;
use writing::Page;

fn tell(rt: HostRuntime, r: Ran, answers: &[i32; 8], out: &mut [u8])
    requires { 150 ≤ length out.old }
{
    let mut page = Page::new(out, 0);
    page.put_count(r.accepted as u64);
    page.put_byte(b' ');
    page.put_count(r.clipped as u64);
    page.put_byte(b' ');
    page.put_line(&[r.number]);
    page.put_line(answers);
    let place = page.place();
    let _ = pipes::send(&mut rt.stdout(), &out[..place]);
}

// A run that is lent the first so many of the answers.
fn ran(rt: HostRuntime, d: Drive, samples: &[i32], lent: usize, out: &mut [u8])
    requires { (lent ≤ 8) × (150 ≤ length out.old) }
{
    let mut answers = [7i32; 8];
    let r = rows::run(d, samples, &mut answers[..lent]);
    tell(rt, r, &answers, out);
}

// As `drive::with_target` by its form alone: another word is changed.
fn turned_too_far(d: Drive) -> Drive {
    Drive {
        field: Field {
            angle: 65536,
            ..d.field
        },
        ..d
    }
}

fn tripped(d: Drive) -> Drive {
    Drive { tripped: true, ..d }
}

fn main(rt: HostRuntime) {
    let Ok(s) = settings::check(settings::bench_settings()) else {
        return;
    };
    let d = drive::fresh(s);
    let samples = [0i32, 0, 0, 9000, 0, 0];
    let mut out = [0u8; 150];
    ran(rt, d, &samples, 8, &mut out);
    ran(rt, d, &samples[..3], 8, &mut out);
    ran(rt, d, &samples[..0], 0, &mut out);
    ran(rt, d, &samples[..4], 8, &mut out);
    ran(rt, d, &samples, 7, &mut out);
    ran(rt, tripped(d), &samples, 8, &mut out);
    ran(rt, turned_too_far(d), &samples, 8, &mut out);
    ran(rt, turned_too_far(d), &samples[..4], 7, &mut out);
}
