//! The second reading of a source of which something is found: the lines, columns and paths of the places.
ghost use Rattle.std.specs.Prelude.{◌≡◌, IfOk};
ghost use Rattle.geolint_report.specs.Judged.{CountsFailure, framing_in};
ghost use Rattle.geolint_report.specs.Sites.{AreSitesIn};
ghost use Rattle.geolint_report.specs.Sought.{AreSought, AreSoughtFor};

use crate::judge::{Finding, Reading};
use crate::progress::Meter;
use crate::sites::Sites;
use crate::source::{Rewind, Source};
use gj_json::Limits;
use gj_rules::Framing;
use std::io;

/// The lines, columns and paths of what is reported: none where the source cannot be read again as it was.
pub fn find_sites<S: Rewind>(
    finding: &Finding,
    source: &mut S,
    reading: Reading,
    limits: Limits,
    meter: &mut Meter,
) -> Sites
    ensures text { S.text source.new ≡ S.text source.old }
    ensures sought { AreSought finding.now reading limits (S.text source.old) (S.failed_reads source.old) (S.failed_reads source.new) result }
{
    match read_sites(finding, source, reading, limits, meter) {
        Ok(sites) => sites,
        Err(_) => Sites::none(),
    }
}

/// The lines, columns and paths of what is reported, in the source from its first byte on.
fn read_sites<S: Rewind>(
    finding: &Finding,
    source: &mut S,
    reading: Reading,
    limits: Limits,
    meter: &mut Meter,
) -> io::Result<Sites>
    ensures sites { IfOk result (AreSitesIn limits (framing_in reading) (S.text source.old)) }
    ensures places { IfOk result (AreSoughtFor finding.now) }
    ensures failed { CountsFailure (S.failed_reads source.old) (S.failed_reads source.new) result }
    ensures text { S.text source.new ≡ S.text source.old }
{
    meter.read_again();
    source.rewind()?;
    let sites = sites_in(finding, source, limits, reading.framing(), meter)?;
    source.expect_unchanged()?;
    Ok(sites)
}

/// The lines, columns and paths of what is reported of a finding, in what a source has left.
fn sites_in<S: Source>(
    finding: &Finding,
    reader: &mut S,
    limits: Limits,
    framing: Option<Framing>,
    meter: &mut Meter,
) -> io::Result<Sites>
    ensures sites { IfOk result (AreSitesIn limits framing (S.remaining reader.old)) }
    ensures places { IfOk result (AreSoughtFor finding.now) }
    ensures text { S.text reader.new ≡ S.text reader.old }
    ensures failed { CountsFailure (S.failed_reads reader.old) (S.failed_reads reader.new) result }
{
    let mut sites = finding.places();
    sites.find(reader, limits, framing, meter)?;
    Ok(sites)
}
