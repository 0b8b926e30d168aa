//! `flow draw`, `flow why`, `flow results` and `flow trace`.
use crate::culprits::tell_culprits;
use crate::files::{file_of, plan_in, read_file, read_network, read_text_report};
use crate::output::{finish, output};
use crate::result_files::ResultFiles;
use crate::stop::Stop;
use crate::whole_files::Rules;
use clap::ArgMatches;
use flow_outcome::{
    DrawStyle, Outline, ResultsError, ResultsForm, TellFault, results_by_action, write_drawing,
    write_results, write_trace, write_verdict,
};
use flow_plan_outline::outline_of;
use flow_reading::Report;
use std::alloc::AllocError;
use std::fs::Files;
use std::io::Input;

/// Draws a network, and what became of it by a report. Names and states have colours where that is asked for.
pub fn draw<R: Files + Input + Print + AllocGlobal>(
    rt: &R,
    given: &ArgMatches<'_>,
    coloured: bool,
) -> Result<u8, Stop> {
    let plan = read_network(rt, given.get_str("network").unwrap_or(""))?;
    let outline = outline_of(rt.alloc(), &plan)?;
    let style = match (given.get_flag("dot"), coloured) {
        (true, _) => DrawStyle::Dot,
        (false, true) => DrawStyle::Coloured,
        (false, false) => DrawStyle::Plain,
    };
    match given.get_str("report") {
        Some(path) => {
            let text = read_file(rt, path)?;
            let report = read_text_report(rt.alloc(), path, &text)?;
            print_drawing(rt, &outline, Some(&report), style, path)
        }
        None => print_drawing(rt, &outline, None, style, ""),
    }
}

/// Prints a drawing; the report, if there is one, stands in the file of this name.
fn print_drawing<R: Print + AllocGlobal>(
    rt: &R,
    outline: &Outline<'_>,
    report: Option<&Report<'_>>,
    style: DrawStyle,
    path: &str,
) -> Result<u8, Stop> {
    let mut writer = output(rt)?;
    match write_drawing(outline, report, style, &mut writer) {
        Ok(()) => finish(writer, 0),
        Err(fault) => Err(untold(path, fault)),
    }
}

/// What it comes to that nothing is told of a network and the report in the file of this name.
fn untold(path: &str, fault: TellFault) -> Stop {
    match fault {
        TellFault::Write => Stop::no_output(),
        TellFault::Misfit(misfit) => Stop::refused(path, &misfit),
    }
}

/// Tells why a run ended with its status, which is the answer, and which of its records faults come from where these are given.
pub fn why<R: Files + Input + Print + AllocGlobal>(
    rt: &R,
    given: &ArgMatches<'_>,
) -> Result<u8, Stop> {
    let alloc = rt.alloc();
    let network = given.get_str("network").unwrap_or("");
    let network_text = read_file(rt, network)?;
    let plan = plan_in(alloc, network, &network_text)?;
    let outline = outline_of(alloc, &plan)?;
    let path = given.get_str("report").unwrap_or("");
    let text = read_file(rt, path)?;
    let report = read_text_report(alloc, path, &text)?;
    let records = match given.get_str("records") {
        Some(path) => Some(read_file(rt, path)?),
        None => None,
    };
    let mut writer = output(rt)?;
    let status = match write_verdict(&outline, &report, &mut writer) {
        Ok(status) => status,
        Err(fault) => return Err(untold(path, fault)),
    };
    if let Some(records) = records {
        tell_culprits(
            alloc,
            network,
            &network_text,
            &records,
            &report,
            &mut writer,
        )?;
    }
    finish(writer, status)
}

/// Prints what actions recorded, or writes it to files.
pub fn results<R: Files + Input + Print + AllocGlobal>(
    rt: &R,
    given: &ArgMatches<'_>,
) -> Result<u8, Stop> {
    let path = given.get_str("report").unwrap_or("");
    let folder = given.get_str("files");
    let may_replace = given.get_flag("force");
    if may_replace && folder.is_none() {
        return Err(Stop::usage("--force is for --files"));
    }
    let text = read_file(rt, path)?;
    let names = given.get_strs("blocks").unwrap_or(&[]);
    let form = form_of(given);
    let Some(folder) = folder else {
        return print_results(rt, path, &text, names, form);
    };
    let rules = Rules {
        source: file_of(path),
        read: "the report is read from it",
        may_replace,
    };
    let files = ResultFiles {
        folder,
        rules,
        form,
    };
    match results_by_action(rt.alloc(), &text, names, form) {
        Ok(results) => files.write(rt, &results)?,
        Err(error) => return Err(no_results(path, error)),
    }
    Ok(0)
}

fn form_of(given: &ArgMatches<'_>) -> ResultsForm {
    match (
        given.get_flag("jsonl"),
        given.get_flag("json"),
        given.get_flag("header"),
    ) {
        (true, _, _) => ResultsForm::JsonLines,
        (false, true, _) => ResultsForm::Json,
        (false, false, true) => ResultsForm::NamedCsv,
        (false, false, false) => ResultsForm::Csv,
    }
}

/// Prints what actions of the report in the file of this name recorded.
fn print_results<R: Print + AllocGlobal>(
    rt: &R,
    path: &str,
    text: &[u8],
    names: &[&str],
    form: ResultsForm,
) -> Result<u8, Stop> {
    let mut writer = output(rt)?;
    match write_results(rt.alloc(), text, names, form, &mut writer) {
        Ok(()) => finish(writer, 0),
        Err(error) => Err(no_results(path, error)),
    }
}

/// What it comes to that there are no results of the report in the file of this name.
fn no_results(path: &str, error: ResultsError<'_>) -> Stop {
    match error {
        ResultsError::Write => Stop::no_output(),
        ResultsError::Memory => Stop::from(AllocError),
        error @ (ResultsError::Report(_) | ResultsError::NoBlock(_) | ResultsError::NoAction(_)) =>
            { Stop::refused(path, &error) }
    }
}

/// Tells where a value was. The status is 1 where it was nowhere.
pub fn trace<R: Files + Input + Print + AllocGlobal>(
    rt: &R,
    given: &ArgMatches<'_>,
) -> Result<u8, Stop> {
    let path = given.get_str("report").unwrap_or("");
    let text = read_file(rt, path)?;
    let report = read_text_report(rt.alloc(), path, &text)?;
    let mut writer = output(rt)?;
    match write_trace(&report, given.get_str("value").unwrap_or(""), &mut writer) {
        Ok(true) => finish(writer, 0),
        Ok(false) => finish(writer, 1),
        Err(_) => Err(Stop::no_output()),
    }
}
