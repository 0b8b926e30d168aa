//! What the program's arguments ask for.
ghost use Rattle.std.specs.Prelude.{◌≡◌, IfSome};
ghost use Rattle.flow_cli.specs.Request.{workers_of, bounds_of, IsCrew, HasCrew, Asks};

use crate::number::read_number;

/// How many workers run a network, and after how many events they stop.
#[derive(Clone, Copy)]
pub struct Bounds {
    pub workers: u32,
    pub limit: u64,
}

/// The limit where none is named.
pub const DEFAULT_LIMIT: u64 = 10_000_000;

/// The bounds where nothing is named.
pub const DEFAULT_BOUNDS: Bounds = Bounds {
    workers: 2,
    limit: DEFAULT_LIMIT,
};

/// What is to be run.
#[derive(Clone, Copy)]
pub enum Request<'a> {
    /// The network and the records that stand in standard input, one after the other.
    Input,
    /// The network in this file, over the records in standard input.
    File { path: &'a str, bounds: Bounds },
}

/// What the arguments behind the program's name ask for; none where they are to be refused.
///
/// No file is looked at.
pub fn read_request(arguments: &[String]) -> Option<Request<'_>>
    ensures asks { Asks arguments.now result }
    ensures crew { IfSome result HasCrew }
{
    match arguments {
        [] => Some(Request::Input),
        [path, options @ ..] => match read_bounds(options) {
            Some(bounds) => Some(Request::File {
                path: path.as_str(),
                bounds,
            }),
            None => None,
        },
    }
}

/// The number of workers, and the limit, if it is named.
fn read_bounds(options: &[String]) -> Option<Bounds>
    ensures bounds { result ≡ bounds_of options.now }
    ensures crew { IfSome result (λ bounds. IsCrew bounds.workers) }
{
    match options {
        [workers] => Some(Bounds {
            workers: read_workers(workers.as_str())?,
            limit: DEFAULT_LIMIT,
        }),
        [workers, limit] => Some(Bounds {
            workers: read_workers(workers.as_str())?,
            limit: read_number(limit.as_str())?,
        }),
        _ => None,
    }
}

/// A number of workers, from 1 to 64.
fn read_workers(text: &str) -> Option<u32>
    ensures workers { result ≡ workers_of text.now }
    ensures crew { IfSome result IsCrew }
{
    match read_number(text) {
        Some(number @ 1..=64) => Some(number as u32),
        _ => None,
    }
}
