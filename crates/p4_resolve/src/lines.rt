//! The lines that name the headers: in the struct, in the parser and in the deparser.
ghost use Rattle.std.specs.Prelude.{◌≡◌, ◌++◌, ◌≤◌, [], drop, IfErr, IfOk, List, length, map, slice_get, ℕ};
ghost use Rattle.cocoon_num.specs.Names.{same_name};
ghost use Rattle.cocoon_num.specs.Tokens.{Kind as Token};
ghost use Rattle.p4_ir.specs.Program as ir;
ghost use Rattle.p4_texts.specs.KindFaults.{line_pieces, member_pieces};
ghost use Rattle.p4_resolve.specs.Judged.{Passes, StopsBy};
ghost use Rattle.p4_resolve.specs.Lines.{line_fits, member_fits};
ghost use Rattle.p4_texts.specs.TreeOf.{member_of};

use crate::fault::KindFault;
use crate::pieces::pass;
use cocoon_num::Text;
use p4_ir::P4Header;
use p4_kinds::bytes::is_same;
use p4_texts::written::WrittenMember;

/// The bytes from this index on.
fn rest_from(name: &[u8], from: usize) -> &[u8]
    requires { from ≤ length name.now }
    ensures { result.now ≡ drop from name.now }
{
    &name[from..]
}

/// The name is these two, one after the other.
#[tactic(auto, using(crate::proofs::LineFacts::begins_is, crate::proofs::LineFacts::two_parts))]
fn is_joined(name: &[u8], start: &[u8], rest: &[u8]) -> bool
    ensures { result ≡ same_name name.now (start.now ++ rest.now) }
{
    name.starts_with(start) && is_same(rest_from(name, start.len()), rest)
}

/// There is a header of this index, and the line names it.
fn is_member(headers: &[P4Header], index: usize, member: &WrittenMember) -> bool
    ensures { result ≡ member_fits (slice_get (map ir.header_of headers.now) index)
        (member_of member.now) }
{
    match headers.get(index) {
        Some(header) => {
            let name = header.name.bytes();
            is_joined(member.header.bytes(), b"ht_", name)
                && is_joined(member.name.bytes(), b"h_", name)
        }
        None => false,
    }
}

/// There is a header of this index, and this is its name in a line.
fn is_line(headers: &[P4Header], index: usize, name: &[u8]) -> bool
    ensures { result ≡ line_fits (slice_get (map ir.header_of headers.now) index) name.now }
{
    match headers.get(index) {
        Some(header) => is_joined(name, b"h_", header.name.bytes()),
        None => false,
    }
}

/// The lines of `struct Headers`.
pub(crate) fn members(
    at: u32,
    headers: &[P4Header],
    members: &[WrittenMember],
) -> Result<u32, KindFault>
    ensures passes { IfOk result (Passes at
        (member_pieces (map ir.header_of headers.now) (map member_of members.now))) }
    ensures stops { IfErr result (StopsBy at
        (member_pieces (map ir.header_of headers.now) (map member_of members.now))) }
{
    let mut next = at;
    for (index, member) in members.iter().enumerate() {
        next = pass(next, 3, is_member(headers, index, member))?;
    }
    Ok(next)
}

/// The lines of the parser, or of the deparser, each of nine tokens.
pub(crate) fn lines(at: u32, headers: &[P4Header], names: &[Text]) -> Result<u32, KindFault>
    ensures passes { (line : List ℕ → List Token → List Token)
        → ((x : List ℕ) → length (line x []) ≡ 9) → IfOk result (Passes at
        (line_pieces line (map ir.header_of headers.now) names.now)) }
    ensures stops { (line : List ℕ → List Token → List Token)
        → ((x : List ℕ) → length (line x []) ≡ 9) → IfErr result (StopsBy at
        (line_pieces line (map ir.header_of headers.now) names.now)) }
{
    let mut next = at;
    for (index, name) in names.iter().enumerate() {
        next = pass(next, 9, is_line(headers, index, name.bytes()))?;
    }
    Ok(next)
}
