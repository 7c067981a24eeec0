//! Packets from bytes and back. The functions do nothing; their contracts are the laws.
ghost use Rattle.std.specs.Prelude.{◌≡◌, List, Some, ℕ};
ghost use Rattle.cocoon_num.specs.Packets.{enter, Layout, leave, Packet};
ghost use Rattle.cocoon_num.specs.PacketForms.{AllWhole, AreBytes, PacketFits};

/// A packet that enters and leaves unchanged has the bytes that it came from.
pub fn leave_undoes_enter()
    ensures { (layout : Layout) (bytes : List ℕ) (packet : Packet) (payload : List ℕ)
        → AllWhole layout → AreBytes bytes → enter layout bytes ≡ Some (packet, payload)
        → leave layout packet payload ≡ bytes }
{}

/// A packet that leaves and enters again is the same, and so is its payload.
pub fn enter_undoes_leave()
    ensures { (layout : Layout) (packet : Packet) (payload : List ℕ)
        → AllWhole layout → PacketFits layout packet
        → enter layout (leave layout packet payload) ≡ Some (packet, payload) }
{}
