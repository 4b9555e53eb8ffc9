//! Reading the words behind each of those that name what is shown.
ghost use Rattle.std.specs.Prelude.{◌≡◌, ◌≤◌, ◌∷◌, IfErr, IfNone, IfOk, IfSome, OnErr, decimal, drop};
ghost use Rattle.bench_edges.specs.Words.{texts};
ghost use Rattle.bench_edges.specs.declared.words.TheConstants.{LEAST_ROOT, MOST_ROOT};
ghost use Rattle.view_words.specs.Places.{HasNoNumber, ReadsNumber};
ghost use Rattle.view_words.specs.Words.{IsCalled, IsRefusedAt, Says};
ghost use Rattle.view_words.specs.declared.requests.Kind.TheVariants as kind;

use crate::places::{
    behind_number, behind_option, behind_word, end_at, found_at, number_at, option_at, stands_at,
};
use crate::requests::{
    LineRequest, MOST_NODES, MOST_PLAYED, MOST_PLIES, MOST_VARIED, PageRequest, RecordsRequest,
    Request, RootsRequest, TreeRequest,
};
use bench_edges::{LEAST_ROOT, MOST_ROOT, WordsRefusal};

/// Reads words of which the second is `roots`.
pub(crate) fn read_roots(words: &[&str]) -> Result<Request, WordsRefusal>
    requires { IsCalled kind.Roots (texts words.now) }
    ensures request { IfOk result (Says (texts words.now)) }
    ensures refused { IfErr result (λ refusal. IsRefusedAt (texts words.now) refusal.at) }
{
    let plies = option_at(words, 2, "--plies", MOST_PLAYED)?;
    let after_plies = behind_option(2, plies);
    let json = stands_at(words, after_plies, "--json");
    let after_json = behind_word(after_plies, json);
    end_at(words, after_json)?;
    Ok(Request::Roots(RootsRequest { plies, json }))
}

/// Reads words of which the second is `line`.
pub(crate) fn read_line(words: &[&str]) -> Result<Request, WordsRefusal>
    requires { IsCalled kind.Line (texts words.now) }
    ensures request { IfOk result (Says (texts words.now)) }
    ensures refused { IfErr result (λ refusal. IsRefusedAt (texts words.now) refusal.at) }
{
    let root = number_at(words, 2, LEAST_ROOT, MOST_ROOT)?;
    let plies = option_at(words, 3, "--plies", MOST_VARIED)?;
    let after_plies = behind_option(3, plies);
    end_at(words, after_plies)?;
    Ok(Request::Line(LineRequest { root, plies }))
}

/// Reads words of which the second is `tree`.
pub(crate) fn read_tree(words: &[&str]) -> Result<Request, WordsRefusal>
    requires { IsCalled kind.Tree (texts words.now) }
    ensures request { IfOk result (Says (texts words.now)) }
    ensures refused { IfErr result (λ refusal. IsRefusedAt (texts words.now) refusal.at) }
{
    let root = number_at(words, 2, LEAST_ROOT, MOST_ROOT)?;
    let plies = option_at(words, 3, "--plies", MOST_PLIES)?;
    let after_plies = behind_option(3, plies);
    let nodes = option_at(words, after_plies, "--nodes", MOST_NODES)?;
    let after_nodes = behind_option(after_plies, nodes);
    let json = stands_at(words, after_nodes, "--json");
    let after_json = behind_word(after_nodes, json);
    end_at(words, after_json)?;
    Ok(Request::Tree(TreeRequest {
        root,
        plies,
        nodes,
        json,
    }))
}

/// Reads words of which the second is `page`.
pub(crate) fn read_page(words: &[&str]) -> Result<Request, WordsRefusal>
    requires { IsCalled kind.Page (texts words.now) }
    ensures request { IfOk result (Says (texts words.now)) }
    ensures refused { IfErr result (λ refusal. IsRefusedAt (texts words.now) refusal.at) }
{
    let root = found_at(words, 2, LEAST_ROOT, MOST_ROOT);
    let after_root = behind_number(2, root);
    let nodes = option_at(words, after_root, "--nodes", MOST_NODES)?;
    let after_nodes = behind_option(after_root, nodes);
    end_at(words, after_nodes)?;
    Ok(Request::Page(PageRequest { root, nodes }))
}

/// Reads words of which the second is `records`.
pub(crate) fn read_records(words: &[&str]) -> Result<Request, WordsRefusal>
    requires { IsCalled kind.Records (texts words.now) }
    ensures request { IfOk result (Says (texts words.now)) }
    ensures refused { IfErr result (λ refusal. IsRefusedAt (texts words.now) refusal.at) }
{
    let json = stands_at(words, 2, "--json");
    let after_json = behind_word(2, json);
    end_at(words, after_json)?;
    Ok(Request::Records(RecordsRequest { json }))
}
