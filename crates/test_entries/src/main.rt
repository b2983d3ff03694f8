// Writes the sines of the cases in docs/RULES.md: of the entries 0, 1, 16, 32, 63 and 64, and of the angle 255, which reads entry 0. One number
// on a line of its own. Then, for each of the 256 entries in turn, and so at every joint of the table, the sine and the cosine of its first angle,
// two numbers a line.
#![tactic(auto)]

ghost use Rattle.std.specs.Prelude.{◌≤◌, length};
ghost use Rattle.sine.specs.Sine.{Angle};

use writing::Page;

fn show(rt: HostRuntime, numbers: &[i32])
    requires { (1 ≤ length numbers.now) × (length numbers.now ≤ 2) }
{
    let mut out = [0u8; 24];
    let mut page = Page::new(&mut out, 0);
    page.put_line(numbers);
    let place = page.place();
    if let Err(why) = pipes::send(&mut rt.stdout(), &out[..place]) {
        pipes::tell_trouble(&mut rt.stderr(), b"test_entries", why);
    }
}

fn show_sine(rt: HostRuntime, angle: i32)
    requires { Angle angle }
{
    let numbers = [sine::sine(angle)];
    show(rt, &numbers);
}

fn show_both(rt: HostRuntime, angle: i32)
    requires { Angle angle }
{
    let numbers = [sine::sine(angle), sine::cosine(angle)];
    show(rt, &numbers);
}

fn show_all(rt: HostRuntime) {
    for entry in 0..256u16 {
        show_both(rt, 256 * i32::from(entry));
    }
}

fn main(rt: HostRuntime) {
    for angle in [0, 256, 4096, 8192, 16128, 16384, 255] {
        show_sine(rt, angle);
    }
    show_all(rt);
}
