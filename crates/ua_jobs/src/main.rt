//! The jobs of bench/workloads.txt. Each makes its inputs from a number, does its calls, and prints a digest of all that
//! came of them, a line a job: `ua_jobs JOB NUMBER ROUNDS`, in which the job may be `all`.
#![tactic(auto)]

mod answers;
mod captures;
mod clients;
mod connections;
mod digest;
mod documents;
mod draw;
mod frames;
mod histories;
mod lines;
mod offers;
mod replays;
mod servers;
mod values;

use crate::digest::{Digest, Failed};
use crate::draw::{Draw, Pool};
use std::env;
use std::net::Net;
use std::process::ExitCode;
use std::rt::{Clock, Env, Files};

fn main(rt: HostRuntime) -> ExitCode {
    match jobs_of(&rt) {
        Ok(()) => ExitCode::SUCCESS,
        Err(Failed) => ExitCode::from(1),
    }
}

/// All jobs.
const JOBS: [&str; 6] = ["replay", "serve", "ask", "history", "show", "settings"];

/// Does the job that the words ask for, or all jobs, and prints a line for each.
fn jobs_of<R: Files + Net + Clock + Env + Print + AllocGlobal>(rt: &R) -> Result<(), Failed> {
    let Ok(words) = env::args(rt) else {
        return Err(Failed);
    };
    let words: Vec<String> = words.skip(1).collect(rt.alloc())?;
    let [asked, number, rounds] = words.as_slice() else {
        return Err(Failed);
    };
    let (Ok(number), Ok(rounds)) = (number.parse::<u32>(), rounds.parse::<u32>()) else {
        return Err(Failed);
    };
    each_job(rt, asked.as_str(), number, rounds)
}

fn each_job<R: Files + Net + Clock + Print + AllocGlobal>(
    rt: &R,
    asked: &str,
    number: u32,
    rounds: u32,
) -> Result<(), Failed> {
    let mut found = false;
    for job in &JOBS {
        if asked == "all" || asked == *job {
            found = true;
            one_job(rt, job, number, rounds)?;
        }
    }
    if found { Ok(()) } else { Err(Failed) }
}

/// Does a job, and prints its digest.
fn one_job<R: Files + Net + Clock + Print + AllocGlobal>(
    rt: &R,
    job: &str,
    number: u32,
    rounds: u32,
) -> Result<(), Failed> {
    let mut draw = Draw::new(number);
    let mut digest = Digest::new();
    let pool = Pool::of_digits(rt.alloc(), &mut draw);
    match digested(rt, job, pool, &mut draw, rounds, &mut digest) {
        Ok(()) => said(rt, job, digest.number()),
        Err(Failed) => Err(Failed),
    }
}

fn said<R: Print>(rt: &R, job: &str, number: u64) -> Result<(), Failed> {
    match println!(rt; "{job} {number:016x}") {
        Ok(()) => Ok(()),
        Err(_) => Err(Failed),
    }
}

/// What a job came to, with its pool.
fn digested<R: Files + Net + Clock + AllocGlobal>(
    rt: &R,
    job: &str,
    pool: Result<Pool, Failed>,
    draw: &mut Draw,
    rounds: u32,
    digest: &mut Digest,
) -> Result<(), Failed> {
    match pool {
        Ok(pool) => done(rt, job, &pool, draw, rounds, digest),
        Err(Failed) => Err(Failed),
    }
}

fn done<R: Files + Net + Clock + AllocGlobal>(
    rt: &R,
    job: &str,
    pool: &Pool,
    draw: &mut Draw,
    rounds: u32,
    digest: &mut Digest,
) -> Result<(), Failed> {
    match job {
        "replay" => replays::replay(rt, pool, draw, rounds, digest),
        "serve" => servers::serve(rt.alloc(), pool, draw, rounds, digest),
        "ask" => clients::ask(rt.alloc(), pool, draw, rounds, digest),
        "history" => histories::history(rt.alloc(), pool, draw, rounds, digest),
        "show" => captures::show(rt, pool, draw, rounds, digest),
        "settings" => documents::settings(rt.alloc(), pool, draw, rounds, digest),
        _ => Err(Failed),
    }
}
