//! What a job tells of the codes of its scripts.

ghost use Rattle.std.specs.Prelude.{◌≡◌, ◌≤◌, ◌||◌, ◌++◌, [], ◌∷◌, IfNone, IfOk, IfSome, OnOk, if◌then◌else◌, length, map, string_bytes};
ghost use Rattle.job_file.specs.Answers.{job_view, scripts_view};
ghost use Rattle.job_loading.specs.Listings.{prelude_listing_of, script_listing_of};
ghost use Rattle.job_loading.specs.Replies.{line_of};
ghost use Rattle.script_engine.specs.Codes.{script_codes};
ghost use Rattle.script_engine.specs.Listing.{written};
ghost use Rattle.job_commands.specs.Contexts.{row_of};
ghost use Rattle.job_commands.specs.Documents.{front_for};
ghost use Rattle.job_commands.specs.Listing.{listings_of, prelude_text, scripts_text};
ghost use Rattle.job_commands.specs.Preparing.{codes_of};
ghost use Rattle.job_commands.specs.Running.{front_with, prelude_line, with_listings};

use crate::contexts::tells_keys;
use crate::preparing::{JobScripts, PreparedJob};
use document_replies::{prelude_listing_line, script_listing_line};
use job_file::Job;
use script_engine::Script;
use std::alloc::{AllocError, Global};

/// What a job tells of its codes.
#[derive(Drop)]
pub(crate) struct ToldCodes {
    /// The lines before the replies.
    pub(crate) front: Vec<u8>,
    /// The listings of the report.
    pub(crate) listings: Vec<String>,
}

// ---- listings

/// Puts two listings last.
#[tactic(auto, using(crate::proofs::Listings::two_last))]
fn push_both(script: String, prelude: String, listings: &mut Vec<String>) -> Result<(), AllocError>
    ensures { OnOk result (map string_bytes listings.new.items ≡ map string_bytes listings.old.items ++ string_bytes script ∷ string_bytes prelude ∷ []) }
{
    listings.push(script)?;
    listings.push(prelude)?;
    Ok(())
}

/// Puts the listing of a script's code last, and that of the prelude's.
pub fn push_listings(
    alloc: Global,
    script: &Script,
    listings: &mut Vec<String>,
) -> Result<(), AllocError>
    ensures { OnOk result (map string_bytes listings.new.items ≡ map string_bytes listings.old.items ++ listings_of (script_codes script.now ∷ [])) }
{
    push_both(
        script.listing(alloc)?,
        script.prelude_listing(alloc)?,
        listings,
    )
}

/// Puts those of some scripts last.
fn push_all(alloc: Global, scripts: &[Script], listings: &mut Vec<String>) -> Result<(), AllocError>
    ensures { OnOk result (map string_bytes listings.new.items ≡ map string_bytes listings.old.items ++ listings_of (map script_codes scripts.now)) }
{
    for script in scripts {
        push_listings(alloc, script, listings)?;
    }
    Ok(())
}

/// The listings of the codes of a job's scripts, two for each.
pub fn listings_of(alloc: Global, scripts: &JobScripts) -> Result<Vec<String>, AllocError>
    ensures { IfOk result (λ listings. map string_bytes listings.items ≡ listings_of (codes_of scripts.now)) }
{
    let mut listings = Vec::new(alloc);
    push_listings(alloc, &scripts.first, &mut listings)?;
    push_all(alloc, scripts.more.as_slice(), &mut listings)?;
    Ok(listings)
}

/// Puts the listing of a script's code behind a text.
fn push_text(alloc: Global, script: &Script, text: &mut String) -> Result<(), AllocError>
    ensures { OnOk result (string_bytes text.new ≡ string_bytes text.old ++ written script.now.executable.code) }
{
    let listing = script.listing(alloc)?;
    text.push_str(listing.as_str())?;
    Ok(())
}

/// Puts those of some scripts' codes behind a text.
fn push_texts(alloc: Global, scripts: &[Script], text: &mut String) -> Result<(), AllocError>
    ensures { OnOk result (string_bytes text.new ≡ string_bytes text.old ++ scripts_text (map script_codes scripts.now)) }
{
    for script in scripts {
        push_text(alloc, script, text)?;
    }
    Ok(())
}

/// The listings of the codes of a job's scripts, one behind the other, or that of the prelude with which the first one runs.
pub(crate) fn listed_text(
    alloc: Global,
    scripts: &JobScripts,
    prelude: bool,
) -> Result<String, AllocError>
    ensures { IfOk result (λ text. string_bytes text ≡ (if prelude then prelude_text (codes_of scripts.now) else scripts_text (codes_of scripts.now))) }
{
    if prelude {
        return scripts.first.prelude_listing(alloc);
    }
    let mut text = scripts.first.listing(alloc)?;
    push_texts(alloc, scripts.more.as_slice(), &mut text)?;
    Ok(text)
}

// ---- lines before the replies

/// The two listings of a script, and those of the scripts behind it.
#[derive(Clone, Copy)]
struct ScriptListings<'a> {
    own: &'a String,
    prelude: &'a String,
    behind: &'a [String],
}

/// The listings of a script, of which the first one is taken.
fn with_second<'a>(own: &'a String, rest: &'a [String]) -> Option<ScriptListings<'a>>
    ensures none { IfNone result (rest.now ≡ []) }
    ensures some { IfSome result (λ found. own.now ∷ rest.now ≡ found.own.now ∷ found.prelude.now ∷ found.behind.now) }
{
    match rest.split_first() {
        Some((prelude, behind)) => Some(ScriptListings {
            own,
            prelude,
            behind,
        }),
        None => None,
    }
}

/// The listings of the first script.
fn first_listings(listings: &[String]) -> Option<ScriptListings<'_>>
    ensures none { IfNone result (length listings.now ≤ 1) }
    ensures some { IfSome result (λ found. listings.now ≡ found.own.now ∷ found.prelude.now ∷ found.behind.now) }
{
    match listings.split_first() {
        Some((own, rest)) => with_second(own, rest),
        None => None,
    }
}

/// Puts the line of the listing of a script last, which stands after its key.
fn push_line(
    alloc: Global,
    by_key: bool,
    script: &(String, String),
    own: &String,
    front: &mut Vec<u8>,
) -> Result<(), AllocError>
    ensures { OnOk result (front.new.items ≡ front.old.items ++ line_of (script_listing_of by_key (string_bytes script.now.0) (string_bytes own.now))) }
{
    let line = script_listing_line(alloc, by_key, script.0.as_str(), own.as_str())?;
    front.extend_from_slice(line.as_bytes())?;
    Ok(())
}

/// Puts the lines of the listings of scripts last. Of each two listings the first is shown, after the key of its script.
fn push_lines(
    alloc: Global,
    by_key: bool,
    listings: &[String],
    scripts: &[(String, String)],
    front: &mut Vec<u8>,
) -> Result<(), AllocError>
    ensures { OnOk result (front.new.items ≡ with_listings by_key front.old.items (map string_bytes listings.now) (scripts_view scripts.now)) }
{
    let mut left = listings;
    for script in scripts {
        let Some(found) = first_listings(left) else {
            return Ok(());
        };
        push_line(alloc, by_key, script, found.own, front)?;
        left = found.behind;
    }
    Ok(())
}

/// The lines of the listings of a job's scripts, where they are shown.
fn script_lines(alloc: Global, job: &Job, listings: &[String]) -> Result<Vec<u8>, AllocError>
    ensures { IfOk result (λ lines. lines.items ≡ (if job.now.listing || job.now.steps then with_listings (row_of job.now.context).by_key [] (map string_bytes listings.now) (scripts_view job.now.scripts.items) else [])) }
{
    let mut lines = Vec::new(alloc);
    if job.listing || job.steps {
        let by_key = tells_keys(job.context);
        push_lines(alloc, by_key, listings, job.scripts.as_slice(), &mut lines)?;
        return Ok(lines);
    }
    Ok(lines)
}

/// The line of a listing of the prelude.
fn line_of_prelude(alloc: Global, listing: &String) -> Result<String, AllocError>
    ensures { IfOk result (λ line. string_bytes line ≡ line_of (prelude_listing_of (string_bytes listing.now))) }
{
    prelude_listing_line(alloc, listing.as_str())
}

/// The line of the prelude's listing, of the prelude with which the first script runs.
fn prelude_line(alloc: Global, listings: &[String]) -> Result<String, AllocError>
    ensures { IfOk result (λ line. string_bytes line ≡ prelude_line (map string_bytes listings.now)) }
{
    let Some(found) = first_listings(listings) else {
        return Ok(String::new(alloc));
    };
    let line = line_of_prelude(alloc, found.prelude)?;
    Ok(line)
}

/// That line, where it is shown.
fn prelude_shown(alloc: Global, shown: bool, listings: &[String]) -> Result<String, AllocError>
    ensures { IfOk result (λ line. string_bytes line ≡ (if shown then prelude_line (map string_bytes listings.now) else [])) }
{
    if shown {
        prelude_line(alloc, listings)
    } else {
        Ok(String::new(alloc))
    }
}

/// The lines before the replies, where a job asks for listings or for steps.
fn front_of(alloc: Global, job: &Job, listings: &[String]) -> Result<Vec<u8>, AllocError>
    ensures { IfOk result (λ front. front.items ≡ front_with (job_view job.now) (map string_bytes listings.now)) }
{
    let mut front = script_lines(alloc, job, listings)?;
    let line = prelude_shown(alloc, job.steps, listings)?;
    front.extend_from_slice(line.as_bytes())?;
    Ok(front)
}

/// What a job tells of the codes of its scripts.
pub(crate) fn told_codes(alloc: Global, job: &PreparedJob) -> Result<ToldCodes, AllocError>
    ensures front { IfOk result (λ told. told.front.items ≡ (front_for job.now).bytes) }
    ensures listings { IfOk result (λ told. map string_bytes told.listings.items ≡ listings_of (codes_of job.now.scripts)) }
{
    let listings = listings_of(alloc, &job.scripts)?;
    let front = front_of(alloc, &job.found.job, listings.as_slice())?;
    Ok(ToldCodes { front, listings })
}
