//! Candidates as lines.

use crate::searching::Candidate;
use bcs_display_text::columns::put_decimal;
use bcs_display_text::escaping::put_escaped;
use std::alloc::{AllocError, Global};

/// What is printed about a candidate.
#[derive(Clone, Copy, Debug, PartialEq, Eq)]
pub enum CandidateForm {
    /// Its name.
    Name,
    /// Its name, and what speaks for it.
    Grounds,
    /// The same as a JSON object.
    Json,
}

/// A line for each candidate for these bytes, in ASCII. Fails only if memory runs out.
pub fn candidate_lines(
    alloc: Global,
    candidates: &[Candidate<'_>],
    size: usize,
    form: CandidateForm,
) -> Result<Vec<u8>, AllocError> {
    let mut lines = Vec::new(alloc);
    for candidate in candidates {
        match form {
            CandidateForm::Name => put_escaped(candidate.name, &mut lines)?,
            CandidateForm::Grounds => put_grounds(candidate, size, &mut lines)?,
            CandidateForm::Json => put_object(candidate, size, &mut lines)?,
        }
        lines.push(b'\n')?;
    }
    Ok(lines)
}

fn put_grounds(
    candidate: &Candidate<'_>,
    size: usize,
    out: &mut Vec<u8>,
) -> Result<(), AllocError> {
    put_escaped(candidate.name, out)?;
    out.extend_from_slice(b": ")?;
    put_decimal(u128::from(candidate.evidence.pieces), out)?;
    out.extend_from_slice(match candidate.evidence.pieces {
        1 => b" piece, ",
        _ => b" pieces, ",
    })?;
    put_decimal(u128::from(candidate.evidence.checked), out)?;
    out.extend_from_slice(b" of ")?;
    put_decimal(size as u128, out)?;
    out.extend_from_slice(match size {
        1 => b" byte checked",
        _ => b" bytes checked",
    })
}

fn put_object(candidate: &Candidate<'_>, size: usize, out: &mut Vec<u8>) -> Result<(), AllocError> {
    out.extend_from_slice(b"{\"container\":\"")?;
    put_escaped(candidate.name, out)?;
    out.extend_from_slice(b"\",\"evidence\":")?;
    put_decimal(u128::from(candidate.evidence.checked), out)?;
    out.extend_from_slice(b",\"pieces\":")?;
    put_decimal(u128::from(candidate.evidence.pieces), out)?;
    out.extend_from_slice(b",\"size\":")?;
    put_decimal(size as u128, out)?;
    Ok(out.push(b'}')?)
}
