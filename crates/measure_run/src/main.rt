// The run, as often as standard input has bytes: 32 rows a run or, where the first byte is `e`, 16, the first and the last of them in turn. So what
// a run needs besides its rows is the instructions of two more runs of 16 less those of one more run of 32, whatever reading, starting and writing
// cost, and the rest of the run of 32 is its rows.
#![tactic(auto)]

ghost use Rattle.std.specs.Prelude.{◌+◌, ◌≤◌, length};

use drive_record::Drive;

// A motor that turns slowly at its nominal flux: the currents scatter, the count moves, slip divides in every row once the flux is there.
const SAMPLES: [i32; 96] = [
    2268, -1240, 1, 2318, -1182, 3, 2490, -1298, 5, 2490, -1211, 6, 2467, -1253, 6, 2414, -1217,
    10, 2616, -1216, 13, 2437, -1377, 14, 2570, -1307, 15, 2308, -1336, 20, 2595, -1167, 21, 2300,
    -1206, 22, 2502, -1211, 27, 2482, -1163, 27, 2631, -1251, 27, 2639, -1370, 28, 2633, -1370, 30,
    2425, -1108, 35, 2517, -1091, 39, 2305, -1321, 44, 2521, -1244, 46, 2393, -1190, 49, 2576,
    -1086, 49, 2547, -1155, 54, 2550, -1209, 56, 2404, -1373, 59, 2531, -1112, 64, 2486, -1233, 64,
    2644, -1233, 67, 2645, -1312, 72, 2592, -1310, 74, 2407, -1239, 78,
];

// How many steps the last run accepted. A run takes `size` of the samples, from 0 and from `other` in turn, and goes on with the drive that the
// one before it left.
fn runs(
    d: Drive,
    samples: &[i32],
    out: &mut [i32],
    times: usize,
    size: usize,
    other: usize,
) -> usize
    requires { other + size ≤ length samples.now }
{
    let mut last = d;
    let mut accepted: usize = 0;
    let mut start: usize = 0;
    for _ in 0..times {
        let r = rows::run(last, &samples[start..start + size], out);
        last = r.drive;
        accepted = r.accepted;
        start = other - start;
    }
    accepted
}

fn samples_a_run(first: u8) -> usize
    ensures { result ≤ 96 }
{
    if first == b'e' { 48 } else { 96 }
}

fn show(rt: HostRuntime, n: u64) {
    let _ = rt.println(n);
}

// Whether a number is above 300; asked of the last row's, so that no part of the run goes unused and is left out by the optimiser.
fn above(v: i32) -> u64 {
    u64::from(300 < v)
}

fn main(rt: HostRuntime) {
    let Ok(s) = settings::check(settings::bench_settings()) else {
        return;
    };
    let d = drive::fresh(s);
    let mut bytes = [0u8; 65536];
    let times = match pipes::receive(&mut rt.stdin(), &mut bytes) {
        Ok(size) => size,
        Err(why) => {
            pipes::tell_trouble(&mut rt.stderr(), b"measure_run", why);
            return;
        }
    };
    let samples = SAMPLES;
    let mut out = [0i32; 128];
    let size = samples_a_run(bytes[0]);
    let accepted = runs(d, &samples, &mut out, times, size, 96 - size);
    show(rt, accepted as u64);
    for &v in &out[124..] {
        show(rt, above(v));
    }
}
