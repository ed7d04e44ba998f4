//! What a command line asks for.

ghost use Rattle.std.specs.Prelude.{◌≡◌, map};
ghost use Rattle.lockdep.specs.Clauses.{asked_by, asked_of, explanation_as, explanation_asked, format_as, output_of, schedules_of, verdicts_of, view_of};

use crate::output::Output;
use ld_text::Format;
use ld_words::Line;

/// An output of the traces in these files together, or of the one on standard input if there are no files.
#[derive(Clone, Copy)]
pub(crate) struct OutputRequest<'l, 'a> {
    pub(crate) output: Output<'l>,
    /// Whether there is room for more than 256 keys.
    pub(crate) many: bool,
    pub(crate) workers: u16,
    pub(crate) files: &'l [&'a str],
}

/// The findings between types of the traces in these files, each with what it was seen between.
#[derive(Clone, Copy)]
pub(crate) struct VerdictRequest<'l, 'a> {
    pub(crate) format: Format,
    /// Whether only what was seen between single locks, or isn't known, counts.
    pub(crate) confirmed_only: bool,
    pub(crate) workers: u16,
    pub(crate) files: &'l [&'a str],
}

/// What is said of the histories in these files, or of the one on standard input if there are no files.
#[derive(Clone, Copy)]
pub(crate) struct ScheduleRequest<'l, 'a> {
    /// Whether it is written as JSON.
    pub(crate) json: bool,
    pub(crate) files: &'l [&'a str],
}

/// What a command line asks for.
#[derive(Clone, Copy)]
pub(crate) enum Request<'l, 'a> {
    /// An output of traces together.
    Output(OutputRequest<'l, 'a>),
    /// The findings with what they were seen between.
    Verdicts(VerdictRequest<'l, 'a>),
    /// What is said of histories.
    Schedules(ScheduleRequest<'l, 'a>),
    /// The chains of the trace in this file, or of the one on standard input if there is no file.
    Chains(Option<&'a str>),
}

/// What the line asks for.
pub(crate) fn request_of<'l, 'a>(line: &'l Line<'a>) -> Request<'l, 'a>
    ensures { asked_of result ≡ asked_by line.entry.now }
{
    match line {
        Line::Check {
            workers,
            many,
            files,
        } => output_request(Output::Report, *many, *workers, files.as_slice()),
        Line::Explain {
            workers,
            many,
            json,
            locks,
            confirmed_only,
            files,
        } => {
            let is_between = *locks || *confirmed_only;
            explanation_request(is_between, *many, *json, *confirmed_only, *workers, files)
        }
        Line::Graph {
            workers,
            many,
            findings,
            files,
        } => {
            let output = Output::Picture {
                findings: *findings,
            };
            output_request(output, *many, *workers, files.as_slice())
        }
        Line::Condense {
            workers,
            many,
            files,
        } => output_request(Output::Condensed, *many, *workers, files.as_slice()),
        Line::Schedule { json, files } => schedule_request(*json, files.as_slice()),
        Line::Chains { file } => Request::Chains(*file),
    }
}

fn output_request<'l, 'a>(
    output: Output<'l>,
    many: bool,
    workers: u16,
    files: &'l [&'a str],
) -> Request<'l, 'a>
    ensures { asked_of result ≡ output_of (record {
      output = view_of output.entry;
      many = many;
      workers = workers;
      files = map (λ file. file.now) files.entry.now;
    }) }
{
    Request::Output(OutputRequest {
        output,
        many,
        workers,
        files,
    })
}

fn schedule_request<'l, 'a>(json: bool, files: &'l [&'a str]) -> Request<'l, 'a>
    ensures { asked_of result ≡ schedules_of (record {
      as_json = json;
      files = map (λ file. file.now) files.entry.now;
    }) }
{
    Request::Schedules(ScheduleRequest { json, files })
}

// The request for an explanation, or for verdicts if it is asked what findings were seen between.
fn explanation_request<'l, 'a>(
    is_between: bool,
    many: bool,
    json: bool,
    confirmed_only: bool,
    workers: u16,
    files: &'l [&'a str],
) -> Request<'l, 'a>
    ensures { asked_of result ≡ explanation_asked many json is_between confirmed_only workers (map (λ file. file.now) files.entry.now) }
{
    if is_between {
        return verdict_request(json, confirmed_only, workers, files);
    }
    let output = explanation_as(json, &*files);
    output_request(output, many, workers, files)
}

// The request for verdicts of the traces in these files, as JSON if that is asked for.
fn verdict_request<'l, 'a>(
    json: bool,
    confirmed_only: bool,
    workers: u16,
    files: &'l [&'a str],
) -> Request<'l, 'a>
    ensures { asked_of result ≡ verdicts_of (record {
      format = format_as json;
      confirmed_only = confirmed_only;
      workers = workers;
      files = map (λ file. file.now) files.entry.now;
    }) }
{
    Request::Verdicts(VerdictRequest {
        format: format_as(json),
        confirmed_only,
        workers,
        files,
    })
}

fn format_as(as_json: bool) -> Format
    ensures { result ≡ format_as as_json }
{
    if as_json { Format::Json } else { Format::Lines }
}

fn explanation_as<'l>(json: bool, files: &'l [&'l str]) -> Output<'l>
    ensures { view_of result ≡ explanation_as json (map (λ file. file.now) files.entry.now) }
{
    if json {
        Output::Json { files }
    } else {
        Output::Explanation { files }
    }
}
