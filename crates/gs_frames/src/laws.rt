//! What holds of frames and of every run of a Framer. Each function is empty: its contract is the law.
ghost use Rattle.std.specs.Prelude.{◌≡◌, ◌<◌, ◌≤◌, ◌+◌, ◌^◌, ◌++◌, ◌⊎◌, ℕ, List, length, take, drop};
ghost use Rattle.std.specs.List.{AllByRecursion, flat_map};
ghost use Rattle.gs_frames.specs.Header.{BeginsWithHeader, HasHeaderFault};
ghost use Rattle.gs_frames.specs.Frames.{BeginsWithFrame, IsTooLong, IsIncomplete, HasNoFrame, AreFrames, IsReading, frame_of};
ghost use Rattle.gs_frames.specs.Unread.{Unread, at_start};
ghost use Rattle.gs_frames.specs.Calls.{Answers};
ghost use Rattle.gs_frames.specs.Runs.{Call, Run, fed, given};
ghost use Rattle.gs_frames.specs.declared.framer.Next.{Next};
ghost use Rattle.gs_frames.specs.declared.framer.Next.TheVariants.{Frame, More, Header, TooLong, NoMemory};

/// One thing at most stands at the front of a stream: one frame, a header fault, or one number that is too large.
pub fn one_front()
    ensures frame { (bytes body more other rest : List ℕ) → BeginsWithFrame bytes body more
        → BeginsWithFrame bytes other rest → (body ≡ other) × (more ≡ rest) }
    ensures frame_or_fault { (bytes body more : List ℕ) → BeginsWithFrame bytes body more
        → HasHeaderFault bytes → ⊥ }
    ensures frame_or_too_long { (bytes body more : List ℕ) (n : ℕ) → BeginsWithFrame bytes body more
        → IsTooLong bytes n → ⊥ }
    ensures too_long_or_fault { (bytes : List ℕ) (n : ℕ) → IsTooLong bytes n → HasHeaderFault bytes → ⊥ }
    ensures number { (bytes : List ℕ) (m n : ℕ) → IsTooLong bytes m → IsTooLong bytes n → m ≡ n }
{}

/// What stands at the front of what is unread says what `next` answers. Want of memory may take a frame's place alone.
pub fn one_answer()
    ensures more { (old new : Unread) (answer : Next) → IsIncomplete old.rest → Answers old answer new
        → answer ≡ More }
    ensures header { (old new : Unread) (answer : Next) → HasHeaderFault old.rest → Answers old answer new
        → answer ≡ Header old.at }
    ensures too_long { (old new : Unread) (answer : Next) (n : ℕ) → IsTooLong old.rest n → Answers old answer new
        → answer ≡ TooLong n }
    ensures frame { (old new : Unread) (answer : Next) (body more : List ℕ) → BeginsWithFrame old.rest body more
        → Answers old answer new → (answer ≡ Frame body) ⊎ (answer ≡ NoMemory) }
{}

/// A stream is these frames and no others.
pub fn one_reading()
    ensures { (bytes : List ℕ) (bodies others : List (List ℕ)) (rest end : List ℕ) → IsReading bytes bodies rest
        → IsReading bytes others end → (bodies ≡ others) × (rest ≡ end) }
{}

/// What is written is read again, whatever follows it.
pub fn written_is_read()
    ensures frame { (body more : List ℕ) → length body ≤ 67_108_864 → BeginsWithFrame (frame_of body ++ more) body more }
    ensures frames { (bodies : List (List ℕ)) (rest : List ℕ)
        → AllByRecursion (λ body. length body ≤ 67_108_864) bodies → AreFrames (flat_map frame_of bodies ++ rest) bodies rest }
    ensures too_long { (body more : List ℕ) → 67_108_864 < length body → length body < 10 ^ 19
        → IsTooLong (frame_of body ++ more) (length body) }
{}

/// A malformed header is found within its first 1,024 bytes.
pub fn found_early()
    ensures near { (bytes : List ℕ) → HasHeaderFault bytes → HasHeaderFault (take 1024 bytes) }
    ensures surely { (bytes : List ℕ) → 1024 ≤ length bytes → ((n : ℕ) → BeginsWithHeader bytes n → ⊥)
        → HasHeaderFault bytes }
    ensures rightly { (bytes more : List ℕ) (n : ℕ) → HasHeaderFault bytes
        → BeginsWithHeader (bytes ++ more) n → ⊥ }
{}

/// More bytes never change what was found.
pub fn stays_found()
    ensures frame { (bytes body rest more : List ℕ) → BeginsWithFrame bytes body rest
        → BeginsWithFrame (bytes ++ more) body (rest ++ more) }
    ensures frames { (bytes : List ℕ) (bodies : List (List ℕ)) (rest more : List ℕ) → AreFrames bytes bodies rest
        → AreFrames (bytes ++ more) bodies (rest ++ more) }
    ensures fault { (bytes more : List ℕ) → HasHeaderFault bytes → HasHeaderFault (bytes ++ more) }
    ensures too_long { (bytes more : List ℕ) (n : ℕ) → IsTooLong bytes n → IsTooLong (bytes ++ more) n }
{}

/// Whatever pieces a stream is fed in, and whenever `next` is asked, the frames that are given are the frames of all
/// that was fed, from the first on.
pub fn any_pieces()
    ensures frames { (calls : List Call) (now : Unread) → Run at_start calls now
        → AreFrames (fed calls) (given calls) now.rest }
    ensures rest { (calls : List Call) (now : Unread) → Run at_start calls now → now.rest ≡ drop now.at (fed calls) }
    ensures place { (calls : List Call) (now : Unread) → Run at_start calls now
        → now.at + length now.rest ≡ length (fed calls) }
    // Once `next` has nothing more to give, what was given depends on what was fed alone.
    ensures however_cut { (calls others : List Call) (now end : Unread) → Run at_start calls now
        → Run at_start others end → fed calls ≡ fed others → HasNoFrame now.rest → HasNoFrame end.rest
        → (given calls ≡ given others) × (now.rest ≡ end.rest) × (now.at ≡ end.at) }
    // A header fault is told at the place where it stands.
    ensures header { (calls : List Call) (now end : Unread) (at : ℕ) → Run at_start calls now
        → Answers now (Header at) end
        → IsReading (fed calls) (given calls) (drop at (fed calls)) × HasHeaderFault (drop at (fed calls)) }
{}
