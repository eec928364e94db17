// The lines that are printed.
use bench_device::BenchDevice;
use request_object::{Clients, Error, Request};
use std::alloc::{AllocError, Global};

/// Why there is no answer.
#[derive(Clone, Copy, Drop)]
pub enum Fault {
    /// The keys or the clients are not of their form.
    NoForm,
    /// Out of memory.
    NoMemory,
}

impl From<AllocError> for Fault {
    fn from(_error: AllocError) -> Fault {
        Fault::NoMemory
    }
}

/// An answer for each request of the text, which stand after its keys and its clients.
pub fn answers(alloc: Global, text: &str) -> Result<String, Fault> {
    let (keys, rest) = text.split_once("\n\n").ok_or(Fault::NoForm)?;
    let (clients, requests) = rest.split_once("\n\n").ok_or(Fault::NoForm)?;
    let mut device = device_of(alloc, keys)?;
    let clients = clients_of(alloc, clients)?;
    let mut told = String::new(alloc);
    for line in requests.lines() {
        let answer = Request::read(alloc, line, &clients, &mut device);
        add_answer(&mut told, answer)?;
    }
    Ok(told)
}

fn device_of(alloc: Global, keys: &str) -> Result<BenchDevice, Fault> {
    match BenchDevice::from_text(alloc, keys) {
        Ok(device) => Ok(device),
        Err(bench_device::Error::Line(_)) => Err(Fault::NoForm),
        Err(bench_device::Error::NoMemory) => Err(Fault::NoMemory),
    }
}

fn clients_of(alloc: Global, lines: &str) -> Result<Clients, Fault> {
    match Clients::read(alloc, lines) {
        Ok(clients) => Ok(clients),
        Err(request_clients::Error::Line(_)) => Err(Fault::NoForm),
        Err(request_clients::Error::NoMemory) => Err(Fault::NoMemory),
    }
}

fn add_answer(told: &mut String, answer: Result<Request, Error>) -> Result<(), AllocError> {
    match answer {
        Ok(request) => add_request(told, &request),
        Err(Error::Refused(rule)) => {
            let (number, inner) = (rule.number, rule.inner);
            write!(told, "refused {number}.{inner}\n")
        }
        Err(Error::DeviceFault) => write!(told, "device fault\n"),
        Err(Error::NoMemory) => Err(AllocError),
    }
}

fn add_request(told: &mut String, request: &Request) -> Result<(), AllocError> {
    let asked = request.asked();
    let (queries, client) = (asked.query.len(), asked.client);
    let (nonce, uri) = (asked.nonce, asked.uri);
    let state = request.state().unwrap_or("");
    write!(told, "asked {queries} {client} {nonce} {uri} {state}\n")
}
