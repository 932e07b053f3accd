//! Areas in which one byte is changed, at each place in turn.
use crate::areas::{area_with, number, text_named, turned};
use crate::asserting::{same, same_at};
use crate::opened::opened;
use std::alloc::Global;
use std::process::Abort;

/// A row: what is changed, which bits of a byte are turned, from which place to which, each in turn, and what is opened then,
/// `?` for a state that has no name here.
///
/// `area` is the area of the fresh workspace with a record of no change, 236 bytes, changed as it stands: the head up to 57,
/// the image of 93 bytes, the gate at 150, the record's length and digest up to 191, its body of 44 bytes, and the gate at 235.
///
/// `image` is an image of 602 bytes, and `record` a record of 205 behind the image of the fresh workspace, each changed before
/// its digest is made; a place of theirs stands in the area 57 bytes and 191 bytes further on. In the image stand the
/// counters; at 24 the partners; at 33 the tree, with the root at 37, a closed project at 86, an open one at 167, and at 288
/// its file with the markers at 334 and the partner's bytes at 383; at 396 the shelf; at 452 the built records with a change
/// at 520; and at 529 the kept states with a change at 549. In the record stand the counters; at 24 no partners; at 28 the
/// changes of the tree, with a project at 32 and its file at 113; at 164 none of the shelf; at 168 no built records; and at
/// 172 the kept states with a change at 196.
///
/// A count or a length that is too great takes what follows for what it isn't, up to the first byte that can't be so, or to
/// the end.
const ROWS: &str = "\
area 1 0 0 f
area 1 1 6 left:1:magic
area 1 7 7 left:7:version.257
area 1 8 8 left:7:version.0
area 1 9 15 f
area 1 16 16 left:9:number
area 1 17 23 left:17:truncated
area 1 24 149 left:57:digest
area 1 150 150 f
area 1 151 158 left:151:truncated
area 1 159 234 left:191:digest
area 1 235 235 left:236:truncated
area 128 0 0 f
area 128 1 6 left:1:magic
area 128 7 7 left:7:version.32769
area 128 8 8 left:7:version.129
area 128 9 9 left:9:number
area 128 10 16 f
area 128 17 24 left:17:truncated
area 128 25 149 left:57:digest
area 128 150 150 f
area 128 151 158 left:151:truncated
area 128 159 234 left:191:digest
area 128 235 235 f
image 1 0 23 ?
image 1 24 31 left:659:text
image 1 32 32 ?
image 1 33 36 left:453:text
image 1 37 38 left:659:text
image 1 39 41 left:94:text
image 1 42 42 left:99:text
image 1 43 43 left:100:text
image 1 44 50 left:57:state
image 1 51 51 ?
image 1 52 69 left:57:state
image 1 70 75 left:659:text
image 1 76 76 left:453:text
image 1 77 87 left:659:text
image 1 88 90 left:143:text
image 1 91 91 left:57:state
image 1 92 92 left:149:text
image 1 93 93 left:150:text
image 1 94 118 left:57:state
image 1 119 119 ?
image 1 120 121 left:659:text
image 1 122 122 left:492:text
image 1 123 123 left:659:text
image 1 124 154 left:57:state
image 1 155 156 left:659:text
image 1 157 157 left:492:text
image 1 158 168 left:659:text
image 1 169 171 left:224:text
image 1 172 172 left:345:text
image 1 173 173 left:230:text
image 1 174 174 left:231:text
image 1 175 199 left:57:state
image 1 200 200 ?
image 1 201 204 left:659:text
image 1 205 229 left:57:state
image 1 230 230 ?
image 1 231 254 left:57:state
image 1 255 255 ?
image 1 256 275 left:57:state
image 1 276 289 left:659:text
image 1 290 292 left:345:text
image 1 293 295 left:585:text
image 1 296 296 left:353:text
image 1 297 297 left:354:text
image 1 298 312 left:57:state
image 1 313 313 ?
image 1 314 314 left:57:state
image 1 315 315 ?
image 1 316 323 left:57:state
image 1 324 331 left:659:text
image 1 332 333 ?
image 1 334 336 left:466:text
image 1 337 337 left:403:text
image 1 338 344 left:57:state
image 1 345 345 ?
image 1 346 349 left:659:text
image 1 350 350 ?
image 1 351 353 left:440:text
image 1 354 357 left:659:text
image 1 358 358 left:416:text
image 1 359 359 ?
image 1 360 360 left:659:text
image 1 361 364 ?
image 1 365 367 left:659:text
image 1 368 368 left:422:text
image 1 369 369 left:429:text
image 1 370 370 left:659:text
image 1 371 371 ?
image 1 372 374 left:659:text
image 1 375 376 left:429:text
image 1 377 377 left:434:text
image 1 378 381 left:659:text
image 1 382 382 ?
image 1 383 385 left:473:text
image 1 386 386 left:659:text
image 1 387 390 left:57:state
image 1 391 394 left:659:text
image 1 395 395 ?
image 1 396 398 left:509:text
image 1 399 402 left:659:text
image 1 403 404 left:457:text
image 1 405 406 left:57:state
image 1 407 407 ?
image 1 408 408 left:465:text
image 1 409 409 left:466:text
image 1 410 426 left:57:state
image 1 427 427 ?
image 1 428 435 left:57:state
image 1 436 447 left:659:text
image 1 448 450 left:518:text
image 1 451 451 left:659:text
image 1 452 454 left:586:text
image 1 455 459 left:659:text
image 1 460 462 left:57:state
image 1 463 466 left:659:text
image 1 467 478 left:57:state
image 1 479 479 ?
image 1 480 503 left:57:state
image 1 504 504 ?
image 1 505 506 left:57:state
image 1 507 514 left:659:text
image 1 515 515 ?
image 1 516 518 left:586:text
image 1 519 522 left:659:text
image 1 523 524 left:577:text
image 1 525 527 left:585:text
image 1 528 528 left:586:text
image 1 529 531 left:659:text
image 1 532 532 left:590:text
image 1 533 536 left:659:text
image 1 537 537 ?
image 1 538 540 left:659:text
image 1 541 541 left:603:text
image 1 542 543 ?
image 1 544 544 left:602:text
image 1 545 547 left:659:text
image 1 548 548 left:606:text
image 1 549 551 left:659:text
image 1 552 553 left:606:text
image 1 554 556 left:57:state
image 1 557 558 left:615:text
image 1 559 573 left:57:state
image 1 574 574 ?
image 1 575 575 left:57:state
image 1 576 576 ?
image 1 577 584 left:57:state
image 1 585 592 left:659:text
image 1 593 593 ?
image 1 594 601 left:659:text
image 128 0 0 left:57:state
image 128 1 7 ?
image 128 8 8 left:57:state
image 128 9 15 ?
image 128 16 16 left:57:state
image 128 17 23 ?
image 128 24 31 left:659:text
image 128 32 32 left:57:state
image 128 33 36 left:453:text
image 128 37 39 left:659:text
image 128 40 41 left:94:text
image 128 42 42 left:99:text
image 128 43 43 left:100:text
image 128 44 59 left:57:state
image 128 60 60 left:117:text
image 128 61 61 left:118:text
image 128 62 69 left:57:state
image 128 70 88 left:659:text
image 128 89 91 left:143:text
image 128 92 92 left:149:text
image 128 93 93 left:150:text
image 128 94 109 left:57:state
image 128 110 110 left:167:text
image 128 111 111 left:168:text
image 128 112 119 left:57:state
image 128 120 122 left:659:text
image 128 123 123 left:360:text
image 128 124 154 left:57:state
image 128 155 157 left:659:text
image 128 158 158 left:360:text
image 128 159 169 left:659:text
image 128 170 172 left:224:text
image 128 173 173 left:230:text
image 128 174 174 left:231:text
image 128 175 190 left:57:state
image 128 191 191 left:248:text
image 128 192 192 left:249:text
image 128 193 200 left:57:state
image 128 201 204 left:659:text
image 128 205 275 left:57:state
image 128 276 278 left:659:text
image 128 279 279 left:485:text
image 128 280 290 left:659:text
image 128 291 295 left:345:text
image 128 296 296 left:353:text
image 128 297 297 left:354:text
image 128 298 313 left:57:state
image 128 314 314 left:371:text
image 128 315 315 left:372:text
image 128 316 323 left:57:state
image 128 324 331 left:659:text
image 128 332 333 ?
image 128 334 337 left:466:text
image 128 338 345 left:57:state
image 128 346 349 left:659:text
image 128 350 350 left:57:state
image 128 351 354 left:440:text
image 128 355 357 left:659:text
image 128 358 358 left:545:text
image 128 359 359 left:422:text
image 128 360 360 left:417:text
image 128 361 364 ?
image 128 365 367 left:659:text
image 128 368 368 left:555:text
image 128 369 369 left:429:text
image 128 370 370 left:427:text
image 128 371 371 left:428:text
image 128 372 374 left:659:text
image 128 375 375 left:562:text
image 128 376 376 left:57:state
image 128 377 377 left:434:text
image 128 378 381 left:659:text
image 128 382 382 left:57:state
image 128 383 386 left:473:text
image 128 387 390 left:57:state
image 128 391 393 left:659:text
image 128 394 394 left:585:text
image 128 395 395 ?
image 128 396 399 left:509:text
image 128 400 402 left:659:text
image 128 403 407 left:457:text
image 128 408 408 left:465:text
image 128 409 409 left:466:text
image 128 410 425 left:57:state
image 128 426 426 left:483:text
image 128 427 427 left:484:text
image 128 428 435 left:57:state
image 128 436 447 left:659:text
image 128 448 451 left:518:text
image 128 452 455 left:586:text
image 128 456 459 left:659:text
image 128 460 462 left:57:state
image 128 463 466 left:659:text
image 128 467 506 left:57:state
image 128 507 514 left:659:text
image 128 515 515 left:57:state
image 128 516 519 left:586:text
image 128 520 523 left:659:text
image 128 524 527 left:577:text
image 128 528 528 left:585:text
image 128 529 536 left:659:text
image 128 537 537 left:57:state
image 128 538 541 left:659:text
image 128 542 543 ?
image 128 544 544 left:601:text
image 128 545 552 left:659:text
image 128 553 556 left:606:text
image 128 557 557 left:614:text
image 128 558 558 left:615:text
image 128 559 574 left:57:state
image 128 575 575 left:632:text
image 128 576 576 left:633:text
image 128 577 584 left:57:state
image 128 585 592 left:659:text
image 128 593 593 ?
image 128 594 601 left:659:text
record 1 0 14 ?
record 1 15 15 left:191:state
record 1 16 23 ?
record 1 24 27 left:396:text
record 1 28 31 left:359:text
record 1 32 34 left:396:text
record 1 35 36 left:223:text
record 1 37 37 left:304:text
record 1 38 38 left:229:text
record 1 39 39 left:230:text
record 1 40 64 left:191:state
record 1 65 65 ?
record 1 66 69 left:396:text
record 1 70 100 left:191:state
record 1 101 115 left:396:text
record 1 116 117 left:304:text
record 1 118 120 left:395:text
record 1 121 121 left:312:text
record 1 122 122 left:313:text
record 1 123 139 left:191:state
record 1 140 140 ?
record 1 141 148 left:191:state
record 1 149 156 left:396:text
record 1 157 159 ?
record 1 160 166 left:396:text
record 1 167 167 left:371:text
record 1 168 171 left:363:text
record 1 172 178 left:396:text
record 1 179 179 left:371:text
record 1 180 183 left:396:text
record 1 184 184 ?
record 1 185 187 left:396:text
record 1 188 188 left:384:text
record 1 189 190 ?
record 1 191 191 left:383:text
record 1 192 194 left:396:text
record 1 195 195 left:387:text
record 1 196 198 left:396:text
record 1 199 200 left:387:text
record 1 201 203 left:395:text
record 1 204 204 left:396:text
record 128 0 0 left:191:state
record 128 1 7 ?
record 128 8 8 left:191:state
record 128 9 15 ?
record 128 16 16 left:191:state
record 128 17 23 ?
record 128 24 27 left:396:text
record 128 28 31 left:359:text
record 128 32 34 left:396:text
record 128 35 37 left:223:text
record 128 38 38 left:229:text
record 128 39 39 left:230:text
record 128 40 55 left:191:state
record 128 56 56 left:247:text
record 128 57 57 left:248:text
record 128 58 65 left:191:state
record 128 66 69 left:396:text
record 128 70 100 left:191:state
record 128 101 116 left:396:text
record 128 117 120 left:304:text
record 128 121 121 left:312:text
record 128 122 122 left:313:text
record 128 123 138 left:191:state
record 128 139 139 left:330:text
record 128 140 140 left:331:text
record 128 141 148 left:191:state
record 128 149 156 left:396:text
record 128 157 159 ?
record 128 160 167 left:396:text
record 128 168 171 left:363:text
record 128 172 183 left:396:text
record 128 184 184 left:191:state
record 128 185 188 left:396:text
record 128 189 190 ?
record 128 191 191 left:382:text
record 128 192 199 left:396:text
record 128 200 203 left:387:text
record 128 204 204 left:395:text
";

/// The area of a row with one byte changed.
fn area_changed(rt: &impl Abort, alloc: Global, what: &str, place: usize, bits: u8) -> Vec<u8> {
    let fresh = text_named(rt, alloc, "f");
    match what {
        "image" => {
            let image = turned(text_named(rt, alloc, "x"), place, bits);
            area_with(rt, alloc, &image, b"")
        }
        "record" => {
            let record = turned(text_named(rt, alloc, "grown"), place, bits);
            area_with(rt, alloc, &fresh, &record)
        }
        _ => {
            let record = text_named(rt, alloc, "same");
            turned(area_with(rt, alloc, &fresh, &record), place, bits)
        }
    }
}

/// Opens the areas of a row; how many there are.
fn are_opened_so(rt: &impl Abort, alloc: Global, row: &str) -> u64 {
    let mut words = row.split_whitespace();
    let what = words.next().unwrap_or("");
    let bits = (number(words.next().unwrap_or("")) & 255) as u8;
    let first = number(words.next().unwrap_or(""));
    let last = number(words.next().unwrap_or(""));
    let expected = words.next().unwrap_or("");
    let mut count: u64 = 0;
    for place in first..=last {
        let left = area_changed(rt, alloc, what, place as usize, bits);
        same_at(rt, row, opened(rt, alloc, &left, b"").as_str(), expected);
        count = count.saturating_add(1);
    }
    count
}

#[test]
fn a_changed_byte_is_told_at_its_place(rt: HostRuntime) {
    let mut count: u64 = 0;
    for row in ROWS.lines() {
        count = count.saturating_add(are_opened_so(&rt, rt.alloc(), row));
    }
    // each byte of the area, of the image and of the record, with its lowest and with its highest bit
    same(&rt, count, 2 * (236 + 602 + 205));
}
