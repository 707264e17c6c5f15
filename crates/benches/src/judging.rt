//! The check of a net for a system, both from files.
use rg_lts::Lts;
use rg_net::Net;
use rg_net_verdict::check_net;
use rg_samples::{net, system};
use rg_theory::ALL_NETS;
use std::time::{Clock, Instant};
use std::{fs, io};

// Judges the net, and prints the verdict and the time.
fn measure(
    rt: &(impl Print + Eprint + Clock + AllocGlobal),
    lts: &Lts,
    net: &Net,
) -> io::Result<()> {
    if net.labels() != lts.labels() {
        return eprintln!(rt; "another number of labels");
    }
    let start = Instant::now(rt)?;
    let told = check_net(rt.alloc(), lts, net, ALL_NETS);
    let spent = start.elapsed(rt)?;
    println!(rt; "{told:?}")?;
    eprintln!(rt; "judged: {} nanoseconds", spent.as_nanos())
}

/// Judges the net of the second file for the system of the first one and the class of all nets. The verdict goes to
/// standard output, and the time that the judge takes beyond reading to standard error.
pub fn judge(rt: HostRuntime, words: &[String]) -> io::Result<()> {
    let [system_path, net_path] = words else {
        return eprintln!(rt; "usage: benches judge SYSTEM NET");
    };
    let system_text = fs::read_to_string(&rt, system_path.as_str())?;
    let net_text = fs::read_to_string(&rt, net_path.as_str())?;
    let Some(lts) = system(rt.alloc(), &system_text) else {
        return eprintln!(rt; "no system");
    };
    let Some(net) = net(rt.alloc(), &lts, &net_text) else {
        return eprintln!(rt; "no net for the system");
    };
    measure(&rt, &lts, &net)
}
