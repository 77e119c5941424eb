//! Worked answers.
#![tactic(auto, unfolding(pgp_lines::specs::WorkedLines::text_computed))]

ghost use Rattle.std.specs.Prelude.{◌≡◌, [], ◌∷◌, codes};
ghost use Rattle.pgp_ids.specs.declared.ask_refusal.AskRefusal.TheVariants as ask;
ghost use Rattle.pgp_ids.specs.declared.locate_refusal.LocateRefusal.TheVariants as locate;
ghost use Rattle.pgp_ids.specs.declared.refusal.Refusal.TheVariants as entry;
ghost use Rattle.pgp_ids.specs.declared.text_fault.TextFault.TheVariants as line;
ghost use Rattle.pgp_lines.specs.LineFault.{bad_field};
ghost use Rattle.pgp_text.specs.Reply.{fault_text, reply_text};
ghost use Rattle.pgp_text.specs.WorkedReplies.{members_with_holes, interval_with_holes, traced_answer, located_answer, known_view, asked_answer};
ghost use Rattle.pgp_text.specs.declared.reply.Reply.TheVariants.{Accepted, Asked, Located, Traced, Refused};
ghost use Rattle.pgp_lines.specs.declared.command.op.Op.TheVariants as op;
ghost use Rattle.pgp_text.specs.declared.reply.line_refusal.LineRefusal.TheVariants.{Line, Entry, Ask, Locate};

/// Entries that the log took.
pub fn accepted()
    ensures close { reply_text (Accepted op.Close 1 0)
        ≡ codes "{\"count\":1,\"epoch\":0,\"ok\":\"close\"}" }
    ensures inc { reply_text (Accepted op.Inc 65535 4294967295)
        ≡ codes "{\"count\":65535,\"epoch\":4294967295,\"ok\":\"inc\"}" }
    ensures info { reply_text (Accepted op.Info 4 1)
        ≡ codes "{\"count\":4,\"epoch\":1,\"ok\":\"info\"}" }
    ensures entries { reply_text (Accepted op.Entries 5 1)
        ≡ codes "{\"count\":5,\"epoch\":1,\"ok\":\"entries\"}" }
{}

/// Lines that are no command.
pub fn refused_lines()
    ensures too_long { reply_text (Refused (Line line.LineTooLong))
        ≡ codes "{\"code\":30,\"refused\":\"LineTooLong\"}" }
    ensures no_json { reply_text (Refused (Line line.NotJson))
        ≡ codes "{\"code\":31,\"refused\":\"NotJson\"}" }
    ensures bad_key { fault_text (bad_field (codes "pg"))
        ≡ codes "{\"code\":34,\"key\":\"pg\",\"refused\":\"BadField\"}" }
    ensures no_operation { reply_text (Refused (Line line.NoOp))
        ≡ codes "{\"code\":32,\"refused\":\"NoOp\"}" }
    ensures memory { reply_text (Refused (Line line.Memory))
        ≡ codes "{\"code\":41,\"refused\":\"Memory\"}" }
{}

/// Entries that the log doesn't take, and questions without an answer.
pub fn refused_commands()
    ensures tree_fault { reply_text (Refused (Entry (entry.TreeFault 1)))
        ≡ codes "{\"code\":21,\"refused\":\"TreeFault\",\"tree\":1}" }
    ensures epoch_gap { reply_text (Refused (Entry entry.EpochGap))
        ≡ codes "{\"code\":10,\"refused\":\"EpochGap\"}" }
    ensures closed { reply_text (Refused (Entry entry.Closed))
        ≡ codes "{\"code\":64,\"refused\":\"Closed\"}" }
    ensures memory { reply_text (Refused (Entry entry.Memory))
        ≡ codes "{\"code\":51,\"refused\":\"Memory\"}" }
    ensures unknown_group { reply_text (Refused (Ask ask.UnknownGroup))
        ≡ codes "{\"code\":40,\"refused\":\"UnknownGroup\"}" }
    ensures ask_memory { reply_text (Refused (Ask ask.Memory))
        ≡ codes "{\"code\":41,\"refused\":\"Memory\"}" }
    ensures unknown_pool { reply_text (Refused (Locate locate.UnknownPool))
        ≡ codes "{\"code\":42,\"refused\":\"UnknownPool\"}" }
{}

/// A trace with one past interval, in which null stands for an empty place and for an absent primary.
pub fn traced()
    ensures { reply_text (Traced 9 (interval_with_holes ∷ [])) ≡ traced_answer }
{}

/// Where a group lies.
pub fn located()
    ensures { reply_text (Located (record { pool = 255; pg = 1023 }) members_with_holes 3)
        ≡ located_answer }
{}

/// What is known of a group; the objects that a peer lacks stand in the order of their names.
pub fn asked()
    ensures { reply_text (Asked (record { pool = 1; pg = 0 }) known_view) ≡ asked_answer }
{}
