// The order of operations and of attestations.
ghost use Rattle.std.specs.Prelude.{◌≡◌, Some};
ghost use Rattle.std.specs.Cmp.{on_equiv, on_total, partial_equiv_from_equiv, eq_by_cmp_equiv, partial_order_from_total};
ghost use Rattle.std.specs.Ordering.{is_eq};
ghost use Rattle.claim_trees.specs.Order.{op_tag, kind_of_op, argument_of, tag_of, kind_of_att, height_of, bytes_of, op_order, att_order};
ghost use Rattle.claim_trees.proofs.Orders.{atts_total};
ghost use Rattle.claims.specs.Models.{op, att};

use crate::tree::{Attestation, Operation};
use format::{BITCOIN, Kind, PENDING};
use std::cmp::Ordering;

impl Operation {
    // The byte that begins it in a file.
    pub fn tag(&self) -> u8
        ensures { result ≡ op_tag (op self.now) }
    {
        match self {
            Operation::Sha256 => 0x08,
            Operation::Append(_) => 0xf0,
            Operation::Prepend(_) => 0xf1,
            Operation::Reverse => 0xf2,
            Operation::Hexlify => 0xf3,
        }
    }

    // What it does, without its argument.
    pub fn kind(&self) -> Kind
        ensures { result ≡ kind_of_op (op self.now) }
    {
        match self {
            Operation::Sha256 => Kind::Sha256,
            Operation::Append(_) => Kind::Append,
            Operation::Prepend(_) => Kind::Prepend,
            Operation::Reverse => Kind::Reverse,
            Operation::Hexlify => Kind::Hexlify,
        }
    }

    // The argument, empty where the operation has none.
    pub fn argument(&self) -> &[u8]
        ensures { result.now ≡ argument_of (op self.now) }
    {
        match self {
            Operation::Append(argument) => argument.as_slice(),
            Operation::Prepend(argument) => argument.as_slice(),
            _ => &[],
        }
    }

    // By tag, then by argument: the derived order, since the variants stand in the order of their tags.
    pub fn order(&self, other: &Operation) -> Ordering
        ensures { result ≡ op_order (op self.now) (op other.now) }
    {
        self.cmp(other)
    }
}

impl Attestation {
    pub fn tag(&self) -> [u8; 8]
        ensures { result ≡ tag_of (att self.now) }
    {
        match self {
            Attestation::Pending(_) => PENDING,
            Attestation::Bitcoin(_) => BITCOIN,
            Attestation::Unknown { tag, payload: _ } => *tag,
        }
    }

    // What the order compares, the first first: tag, kind, height, and the address or payload.
    fn key(&self) -> ([u8; 8], u8, u32, &[u8])
        ensures tag { result.0 ≡ tag_of (att self.now) }
        ensures kind { result.1 ≡ kind_of_att (att self.now) }
        ensures height { result.2 ≡ height_of (att self.now) }
        ensures bytes { result.3.now ≡ bytes_of (att self.now) }
    {
        match self {
            Attestation::Bitcoin(height) => (self.tag(), 0, *height, &[]),
            Attestation::Pending(address) => (self.tag(), 1, 0, address),
            Attestation::Unknown { payload, .. } => (self.tag(), 2, 0, payload),
        }
    }
}

// The tag decides first, so the order can't be derived from the variants; under one tag heights compare as numbers, addresses
// and payloads as bytes.
impl Ord for Attestation {
    ghost cmp = { λ a b. att_order (att a) (att b) };

    ghost total = { on_total att atts_total };

    ghost matches_partial_cmp = { λ a b i. Some (att_order (att a) (att b)) };

    ghost matches_eq = { λ a b i. is_eq (att_order (att a) (att b)) };

    fn cmp(&self, other: &Attestation) -> Ordering {
        self.key().cmp(&other.key())
    }
}

impl PartialOrd for Attestation {
    ghost partial_cmp = { λ a b. Some (att_order (att a) (att b)) };

    ghost laws = { partial_order_from_total (on_total att atts_total) };

    fn partial_cmp(&self, other: &Attestation) -> Option<Ordering> {
        Some(Ord::cmp(self, other))
    }
}

impl PartialEq for Attestation {
    ghost eq = { λ a b. is_eq (att_order (att a) (att b)) };

    ghost laws = { partial_equiv_from_equiv (on_equiv att (eq_by_cmp_equiv atts_total)) };

    fn eq(&self, other: &Attestation) -> bool {
        Ord::cmp(self, other).is_eq()
    }
}

impl Eq for Attestation {
    ghost laws = { on_equiv att (eq_by_cmp_equiv atts_total) };
}
