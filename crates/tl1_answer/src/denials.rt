// The text lines of denials, whole.
ghost use Rattle.std.specs.Prelude.{◌≡◌, ◌≤◌, [], length};
ghost use Rattle.tl1_answer.specs.Responses.{with_lines, denial};

use dxc_model::Cause;

/// The two text lines of a denial, as they stand in a block.
pub fn lines_of(cause: Cause) -> &'static [u8]
    ensures lines { result.now ≡ with_lines [] (denial cause) }
    ensures short { length result.now ≤ 80 }
{
    match cause {
        Cause::TooLong => b"   IISP\r\n   /* UNIT LONGER THAN 2048 BYTES */\r\n",
        Cause::BadText => b"   IISP\r\n   /* UNIT IS NOT A COMMAND */\r\n",
        Cause::UnknownCommand => b"   IICM\r\n   /* COMMAND CODE UNKNOWN */\r\n",
        Cause::BadCtag => b"   IICT\r\n   /* CTAG INVALID */\r\n",
        Cause::OtherTarget => b"   IITA\r\n   /* TID IS NOT THIS ELEMENT */\r\n",
        Cause::NotLoggedIn => b"   PLNA\r\n   /* LOG-IN REQUIRED */\r\n",
        Cause::NotEntitled => b"   PICC\r\n   /* CLASS NOT ENTITLED */\r\n",
        Cause::Missing => b"   IPMS\r\n   /* PARAMETER MISSING */\r\n",
        Cause::TooMany => b"   IPEX\r\n   /* PARAMETER TOO MANY */\r\n",
        Cause::GeneralBlock => b"   IPNV\r\n   /* GENERAL BLOCK NOT EMPTY */\r\n",
        Cause::BadValue => b"   IPNV\r\n   /* VALUE NOT KNOWN */\r\n",
        Cause::BadAid => b"   IIAC\r\n   /* AID INVALID */\r\n",
        Cause::SamePort => b"   IIAC\r\n   /* FROM EQUALS TO */\r\n",
        Cause::BadIdentity => b"   PIUI\r\n   /* USER OR PID INVALID */\r\n",
        Cause::OtherUser => b"   PIUI\r\n   /* SESSION IS ANOTHER USERS */\r\n",
        Cause::NotEquipped => b"   ENEQ\r\n   /* MODULE NOT EQUIPPED */\r\n",
        Cause::AlreadyLoggedIn => b"   SNVS\r\n   /* ALREADY LOGGED IN */\r\n",
        Cause::SideInUse => b"   SNVS\r\n   /* SIDE IN USE */\r\n",
        Cause::SameCct => b"   SNVS\r\n   /* CCT AS IT IS */\r\n",
        Cause::ModuleBusy => b"   SNVS\r\n   /* MODULE HAS CONNECTIONS */\r\n",
        Cause::ModuleThere => b"   SNVS\r\n   /* MODULE ALREADY EQUIPPED */\r\n",
        Cause::NoConnection => b"   SNCC\r\n   /* NOT A CONNECTION */\r\n",
        Cause::MiddleOut => b"   SNVS\r\n   /* A MIDDLE IS OUT */\r\n",
        Cause::MiddleIn => b"   SNVS\r\n   /* MIDDLE IS IN SERVICE */\r\n",
        Cause::UserThere => b"   SNVS\r\n   /* USER ALREADY THERE */\r\n",
        Cause::UnknownUser => b"   PIUI\r\n   /* USER NOT KNOWN */\r\n",
        Cause::LastOfClassS => b"   SNVS\r\n   /* LAST USER OF CLASS S */\r\n",
        Cause::UsersFull => b"   SSRE\r\n   /* 64 USERS ARE KEPT */\r\n",
        Cause::NoMiddle => b"   SARB\r\n   /* NO MIDDLE FOR THIS CONNECTION */\r\n",
        Cause::SwitchLimit => b"   SSRE\r\n   /* SWITCH NUMBERS SPENT */\r\n",
        Cause::DiskFault => b"   SROF\r\n   /* JOURNAL WRITE FAILED */\r\n",
        Cause::JournalAstray => b"   SROF\r\n   /* JOURNAL READS OTHERWISE */\r\n",
    }
}
