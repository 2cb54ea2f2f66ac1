// Prints the values of paper 01's 'Proved table', K1 to K11, from the calls themselves: the same values that the crate worked proves of the
// definitions.
#![tactic(auto)]

mod given; // the shape and the sets
mod masked; // K1, K2, K3, K10: the masks and the scratch
mod packed; // K4, K5, K6: the planes
mod scored; // K7, K8, K9: map and class
mod updated; // K11: the payload

use std::io;

fn main(rt: HostRuntime) -> io::Result<()> {
    masked::k1(&rt)?;
    masked::k2(&rt)?;
    masked::k3(&rt)?;
    packed::rows(&rt)?;
    scored::k7_and_k8(&rt)?;
    scored::k9(&rt)?;
    masked::k10(&rt)?;
    updated::k11(&rt)
}
