// What the program is asked to read.
ghost use Rattle.dump.specs.Arguments.{ReadsNumber, ReadsUpTo};

use anyhow::{anyhow, ensure};
use std::env;
use std::num::ParseIntError;
use std::rt::Env;
use wire::address::Expected;

// The message protocol and the channel that are read where no argument names another.
const PROTOCOL: u16 = 0x8004;

const CHANNEL: u32 = 1;

const WRONG_PROTOCOL: &str =
    "the protocol must be a number from 0 to 65535, in decimal or after 0x in hexadecimal";

const WRONG_CHANNEL: &str =
    "the channel must be a number from 0 to 4294967295, in decimal or after 0x in hexadecimal";

// A number in decimal, or in hexadecimal after 0x.
fn number(text: &str) -> Result<u32, ParseIntError>
    ensures { ReadsNumber text.now result }
{
    match text.strip_prefix("0x") {
        Some(digits) => u32::from_str_radix(digits, 16),
        None => text.parse(),
    }
}

// A number of at most `most`, or the error `wrong`.
fn number_up_to(most: u32, text: &str, wrong: &str) -> anyhow::Result<u32>
    ensures { ReadsUpTo most text.now result }
{
    match number(text) {
        Ok(n) if n <= most => Ok(n),
        _ => Err(anyhow!("{wrong}")),
    }
}

// The protocol and the channel of the arguments, and any session.
pub fn expected(rt: &(impl Env + Alloc)) -> anyhow::Result<Expected> {
    let mut args = env::args(rt)?.skip(1);
    let protocol = match args.next() {
        Some(text) => number_up_to(u32::from(u16::MAX), text.as_str(), WRONG_PROTOCOL)? as u16,
        None => PROTOCOL,
    };
    let channel = match args.next() {
        Some(text) => number_up_to(u32::MAX, text.as_str(), WRONG_CHANNEL)?,
        None => CHANNEL,
    };
    ensure!(
        args.next().is_none(),
        "usage: dump [PROTOCOL [CHANNEL]] < CAPTURE"
    );
    Ok(Expected {
        protocol,
        channel,
        session: None,
    })
}
