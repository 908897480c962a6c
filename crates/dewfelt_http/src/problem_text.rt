//! Problems as JSON.

ghost use Rattle.std.specs.Prelude.{◌≡◌, ℕ, List, IfOk, OnOk, Some};
ghost use Rattle.json.specs.Json.{document};
ghost use Rattle.json.specs.Lex.{tokens};
ghost use Rattle.dewfelt_shown.specs.Puts.{Puts};
ghost use Rattle.dewfelt_http.specs.Problems.{parameter_tokens, problem_json, problem_tokens, rest_tokens};

use dewfelt_asked::Problem;
use dewfelt_shown::{put_count, put_text};
use json::Writer;
use std::alloc::{AllocError, Global};

// The type and the title of a status.
fn named(status: u16) -> (&'static str, &'static str) {
    match status {
        400 => (
            "urn:dewfelt:problem:the-request-is-wrong",
            "The request is wrong",
        ),
        401 => ("urn:dewfelt:problem:a-token-is-needed", "A token is needed"),
        403 => ("urn:dewfelt:problem:not-allowed", "Not allowed"),
        404 => ("urn:dewfelt:problem:not-here", "Not here"),
        405 => ("urn:dewfelt:problem:not-this-method", "Not this method"),
        421 => ("urn:dewfelt:problem:not-this-host", "Not this host"),
        _ => ("urn:dewfelt:problem:not-ready", "Not ready"),
    }
}

// The members behind the title.
fn put_rest(writer: &mut Writer, problem: &Problem) -> Result<(), AllocError>
    ensures { OnOk result (Puts writer.old writer.new (rest_tokens problem.now)) }
{
    put_count(writer, "status", problem.status.as_u16() as u64)?;
    put_text(writer, "detail", problem.detail.as_str())?;
    if let Some(parameter) = problem.parameter {
        put_text(writer, "parameter", parameter)?;
    }
    Ok(())
}

fn put_problem(
    writer: &mut Writer,
    kind: &str,
    title: &str,
    problem: &Problem,
) -> Result<(), AllocError>
    ensures { OnOk result (Puts writer.old writer.new
        (problem_tokens kind.now title.now problem.now)) }
{
    writer.begin_object()?;
    put_text(writer, "type", kind)?;
    put_text(writer, "title", title)?;
    put_rest(writer, problem)?;
    writer.end_object()
}

/// A problem as JSON.
pub fn problem_text(alloc: Global, problem: &Problem) -> Result<Vec<u8>, AllocError>
    ensures { IfOk result (λ text. (kind : List ℕ) × (title : List ℕ)
        × (document text.items ≡ Some (problem_json kind title problem.now))) }
{
    let mut writer = Writer::new(Vec::new(alloc));
    let (kind, title) = named(problem.status.as_u16());
    put_problem(&mut writer, kind, title, problem)?;
    Ok(writer.into_inner())
}
