//! The program `vpbench`: the bench over the files of the system, the standard output, and five keys of its
//! own.
#![tactic(auto)]

use bench_device::BenchDevice;
use bench_top::exit_code;
use outside::{FileStore, OutSink, Status};
use std::env;
use std::process::ExitCode;

/// The keys of the bench: those of two issuers, of the holder of an SD-JWT and of a document, and of a site.
/// Their secrets are known to all, so what they sign proves nothing.
const KEYS: &str =
    r#"hold 0101010101010101010101010101010101010101010101010101010101010101 kid:["https://pid.example","p1"]
hold 0202020202020202020202020202020202020202020202020202020202020202 mkid:6d31
hold 0303030303030303030303030303030303030303030303030303030303030303 jwk:{"crv":"P-256","kty":"EC","x":"AQ","y":"Ag"}
hold 0404040404040404040404040404040404040404040404040404040404040404 cose:a401022001214101224102
hold 0505050505050505050505050505050505050505050505050505050505050505 kid:["rp.example","r1"]
"#;

fn main(rt: HostRuntime) -> ExitCode {
    let Ok(mut device) = BenchDevice::from_text(rt.alloc(), KEYS) else {
        return ExitCode::from(Status::NoMemory.code());
    };
    exit_code(
        rt.alloc(),
        env::args(&rt),
        &mut FileStore::new(rt),
        &mut OutSink::new(rt),
        &mut device,
    )
}
