//! Laws of the headers of a packet at once: their fields are those of one header that has them all.
//! The functions do nothing; their contracts are the laws.
ghost use Rattle.std.specs.Prelude.{◌≡◌, ◌++◌, List, ℕ};
ghost use Rattle.cocoon_num.specs.PacketForms.{AllWhole, AreBytes, FieldsFit};
ghost use Rattle.cocoon_num.specs.Packets.{enter, header_bytes, Layout, leave};
ghost use Rattle.packed_fields.specs.AtOnce.{entered_at_once, grouped, widths_in};

/// A packet enters from the bytes of all headers.
pub fn enters_at_once()
    ensures { (layout : Layout) (bytes : List ℕ) → AllWhole layout → AreBytes bytes
        → enter layout bytes ≡ entered_at_once layout bytes }
{}

/// It leaves as the bytes of all headers, and the payload.
pub fn leaves_at_once()
    ensures { (layout : Layout) (fields payload : List ℕ) → AllWhole layout
        → FieldsFit (widths_in layout) fields
        → leave layout (grouped layout fields) payload
        ≡ header_bytes (widths_in layout) fields ++ payload }
{}
